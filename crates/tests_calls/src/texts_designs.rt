//! Generated designs, beside what another program makes by the same rules.

use std::alloc::Global;
use std::test::Fail;
use vg_gen::{Generated, generate};

/// The texts of the smallest design: SPEF, library, netlist and constraints.
static SMALLEST: [&[u8]; 4] = [
    br#"*SPEF "IEEE 1481-1998"
*DESIGN "top"
*DATE "none"
*VENDOR "none"
*PROGRAM "none"
*VERSION "1"
*DESIGN_FLOW "none"
*DIVIDER /
*DELIMITER :
*BUS_DELIMITER [ ]
*T_UNIT 1 PS
*C_UNIT 1 FF
*R_UNIT 1 OHM
*L_UNIT 1 HENRY
*D_NET g 15
*CONN
*I u1:Z O
*I u2:A I
*CAP
1 g:1 15
*RES
1 u1:Z g:1 190
2 g:1 u2:A 100
*END
"#,
    br#"library (demo) {
  delay_model : generic_cmos;
  time_unit : "1ps";
  capacitive_load_unit (1, ff);
  cell (DRV) { area : 4; dont_use : true;
    pin (A) { direction : input; capacitance : 2; }
    pin (Z) { direction : output; function : "A";
      timing () { related_pin : "A"; intrinsic_rise : 10; intrinsic_fall : 9;
        rise_resistance : 1; fall_resistance : 0.9; } } }
  cell (BUF) { area : 2;
    pin (A) { direction : input; capacitance : 2; }
    pin (Z) { direction : output; function : "A";
      timing () { related_pin : "A"; intrinsic_rise : 20; intrinsic_fall : 18;
        rise_resistance : 0.5; fall_resistance : 0.4; } } }
  cell (INV) { area : 1;
    pin (A) { direction : input; capacitance : 1; }
    pin (ZN) { direction : output; function : "!A";
      timing () { related_pin : "A"; intrinsic_rise : 10; intrinsic_fall : 10;
        rise_resistance : 0.5; fall_resistance : 0.5; } } }
}
"#,
    b"module gen (i0);
input i0;
wire g;
DRV u1 (.A(i0), .Z(g));
BUF u2 (.A(g), .Z());
endmodule
",
    b"vgcons 1
default required 1000000
",
];

/// How many lines a text has, and its checksum, FNV-1a of 32 bits.
type Sum = (usize, u32);

/// A size, and the sums of the SPEF text, the netlist and the constraints.
static SIZES: [(u32, Sum, Sum, Sum); 5] = [
    (99, (220, 0x3bf9_6aac), (6, 0x0832_5df3), (2, 0x1c13_b5c3)),
    (100, (224, 0x5c26_fca7), (7, 0x138b_13ea), (3, 0x03be_9f3f)),
    (250, (526, 0x8d6a_b732), (8, 0xeff1_eb9e), (3, 0x03be_9f3f)),
    (
        2000,
        (4062, 0x1c67_199f),
        (26, 0x6857_3f4b),
        (12, 0x1174_4f36),
    ),
    (
        4000,
        (8102, 0x10d6_237d),
        (46, 0xb96a_6a7f),
        (22, 0xdcf8_c303),
    ),
];

/// The design of a size, if there is one.
fn made(alloc: Global, size: u32) -> Result<Generated, Fail> {
    if size == 0 || size > 4000 {
        return Err("no such size".into());
    }
    Ok(generate(alloc, size)?)
}

/// Whether the texts of the design of this size are these.
fn reads(alloc: Global, size: u32, texts: &[&[u8]; 4]) -> Result<bool, Fail> {
    let design = made(alloc, size)?;
    let [spef, lib, verilog, cons] = *texts;
    Ok(
        design.spef.as_slice() == spef
            && design.lib.as_slice() == lib
            && design.verilog.as_slice() == verilog
            && design.cons.as_slice() == cons,
    )
}

#[test]
fn makes_the_smallest_design(rt: HostRuntime) -> Result<(), Fail> {
    assert!(rt; reads(rt.alloc(), 1, &SMALLEST)?);
    Ok(())
}

fn sum_of(text: &[u8]) -> Sum {
    let mut lines: usize = 0;
    let mut sum = 0x811c_9dc5_u32;
    for byte in text {
        lines = lines.wrapping_add(usize::from(*byte == b'\n'));
        sum = (sum ^ u32::from(*byte)).wrapping_mul(0x0100_0193);
    }
    (lines, sum)
}

/// Whether the texts of the design of this size have these sums, and the library is as ever.
fn sums_to(alloc: Global, size: u32, spef: Sum, verilog: Sum, cons: Sum) -> Result<bool, Fail> {
    let design = made(alloc, size)?;
    Ok(
        sum_of(&design.spef) == spef
            && sum_of(&design.verilog) == verilog
            && sum_of(&design.cons) == cons
            && design.lib.as_slice() == SMALLEST[1],
    )
}

#[test]
fn makes_larger_designs(rt: HostRuntime) -> Result<(), Fail> {
    for (size, spef, verilog, cons) in &SIZES {
        assert!(rt;
            sums_to(rt.alloc(), *size, *spef, *verilog, *cons)?,
            "{size}"
        );
    }
    Ok(())
}

/// Where the branches of a design of size 250 are told.
static BRANCHES: [&[u8]; 4] = [
    b"*I u2:A I\n*I s1:A I\n*I s2:A I\n*CAP\n1 g:1 16\n",
    b"251 g:250 u2:A 100\n252 g:100 s1:A 50\n253 g:200 s2:A 50\n*END\n",
    b"BUF u2 (.A(g), .Z());\nBUF s1 (.A(g), .Z());\nBUF s2 (.A(g), .Z());\nendmodule\n",
    b"default required 1000000\nwant s1:A inverted\n",
];

/// Whether this stands in the text.
fn holds(text: &[u8], part: &[u8]) -> bool {
    part.is_empty() || text.windows(part.len()).any(|piece| piece == part)
}

/// Whether the texts of a design of size 250 tell of its branches.
fn tells_branches(alloc: Global) -> Result<bool, Fail> {
    let design = made(alloc, 250)?;
    let [sinks, resistors, cells, wants] = BRANCHES;
    Ok(
        holds(&design.spef, sinks)
            && design.spef.ends_with(resistors)
            && design.verilog.ends_with(cells)
            && design.cons.ends_with(wants),
    )
}

/// Whether a second design of this size has the same texts.
fn repeats(alloc: Global, size: u32) -> Result<bool, Fail> {
    let design = made(alloc, size)?;
    reads(
        alloc,
        size,
        &[&design.spef, &design.lib, &design.verilog, &design.cons],
    )
}

#[test]
fn makes_branches(rt: HostRuntime) -> Result<(), Fail> {
    assert!(rt; tells_branches(rt.alloc())?);
    assert!(rt; repeats(rt.alloc(), 250)?);
    Ok(())
}
