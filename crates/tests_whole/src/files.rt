//! The small design that the tests of runs share, and runs over its files.
ghost use Rattle.std.specs.Prelude.{◌≤◌};

use std::alloc::{AllocError, Global};
use std::test::Fail;
use vg_store::{MemFiles, MemOut};
use vginsert_top::run;

/// Fourteen lines, with units of picoseconds, femtofarads and ohms.
pub(crate) const HEADER: &str = "*SPEF \"IEEE 1481-1998\"
*DESIGN \"top\"
*DATE \"none\"
*VENDOR \"none\"
*PROGRAM \"none\"
*VERSION \"1\"
*DESIGN_FLOW \"none\"
*DIVIDER /
*DELIMITER :
*BUS_DELIMITER [ ]
*T_UNIT 1 PS
*C_UNIT 1 FF
*R_UNIT 1 OHM
*L_UNIT 1 HENRY
";

/// A net from a pin to a pin, which stands behind the header.
pub(crate) const NET: &str = "*D_NET n1 200
*CONN
*I u1:Z O
*I u2:A I
*CAP
1 n1:1 100
2 u2:A 100
*RES
1 u1:Z n1:1 1000
2 n1:1 u2:A 1000
*END
";

/// A library of two cells, of which one is a repeater.
pub(crate) const LIB: &str = "library (demo) {
  delay_model : generic_cmos;
  time_unit : \"1ps\";
  capacitive_load_unit (1, ff);
  cell (DRV) { area : 4; dont_use : true;
    pin (A) { direction : input; capacitance : 2; }
    pin (Z) { direction : output; function : \"A\";
      timing () { related_pin : \"A\"; intrinsic_rise : 10; intrinsic_fall : 9;
        rise_resistance : 1; fall_resistance : 0.9; } } }
  cell (BUF) { area : 2;
    pin (A) { direction : input; capacitance : 2; }
    pin (Z) { direction : output; function : \"A\";
      timing () { related_pin : \"A\"; intrinsic_rise : 20; intrinsic_fall : 18;
        rise_resistance : 0.5; fall_resistance : 0.4; } } }
}
";

/// The netlist of the net.
pub(crate) const NETLIST: &str = "module top (in1, out1);
input in1;
output out1;
wire n1;
DRV u1 (.A(in1), .Z(n1));
BUF u2 (.A(n1), .Z(out1));
endmodule
";

/// The constraints of the net.
pub(crate) const CONS: &str = "vgcons 1
required u2:A 400
";

/// The words of a line, parted at blanks.
pub(crate) fn words_of(alloc: Global, line: &str) -> Result<Vec<String>, AllocError> {
    let mut words = Vec::new(alloc);
    for word in line.split(' ') {
        words.push(String::from_str(alloc, word)?)?;
    }
    Ok(words)
}

/// The certificate of the buffer that mode `best` puts into the net.
///
/// The sink waits until 400 ps and is 102 fF. Through 1 kΩ of wire it takes 102 ps, and 100 fF are at the inner node:
/// 298 ps and 202 fF are left there, or behind a buffer, which takes 20 ps and charges them through 0.5 kΩ, 177 ps and
/// its own 2 fF. At the driver's pin these are 96 ps with 202 fF and 175 ps with 2 fF, of which the second is better in
/// both. The driver takes 10 ps and 2 ps more.
pub(crate) const BUFFERED: &str = "vgcert 1
net n1
slack 163000000000
cells 1
at n1:1 BUF
node u1:Z 1 0
175000000000 2000
node n1:1 2 0
177000000000 2000
298000000000 202000
node u2:A 1 0
400000000000 102000
end
";

pub(crate) const WIRE: &str = "--mode wire --spef a.spef --net n1";

pub(crate) const TIME: &str =
    "--mode time --spef a.spef --lib l.lib --verilog v.v --cons c.txt --net n1";

pub(crate) const BEST: &str =
    "--mode best --spef a.spef --lib l.lib --verilog v.v --cons c.txt --net n1 --out-spef o.spef --out-verilog o.v --cert o.txt";

pub(crate) const FRONTIER: &str =
    "--mode frontier --spef a.spef --lib l.lib --verilog v.v --cons c.txt --net n1";

pub(crate) const CHECK: &str =
    "--mode check --spef a.spef --lib l.lib --verilog v.v --cons c.txt --net n1 --cert k.txt";

/// What is printed of the net in each of these modes.
pub(crate) const WIRE_SAYS: &str = "net n1 total 200000\nsink u2:A 300000000000\n";

pub(crate) const TIME_SAYS: &str = "net n1 slack -116000000000 polarity right\n";

pub(crate) const BEST_SAYS: &str = "net n1 slack 163000000000 cost 2000 cells 1\nat n1:1 BUF\n";

pub(crate) const FRONTIER_SAYS: &str =
    "net n1 points 2\npoint 0 -116000000000 cells 0\npoint 2000 163000000000 cells 1\nat n1:1 BUF\n";

pub(crate) const CHECK_SAYS: &str = "net n1 certificate valid slack 163000000000\n";

/// The files of the small design, which move so many bytes a call, and of which these calls fail.
pub(crate) fn small_files(alloc: Global, chunk: usize, failing: &[u64]) -> Result<MemFiles, Fail>
    requires { 1 ≤ chunk }
{
    let mut files = MemFiles::new(alloc, chunk, failing)?;
    let spef = format!(in alloc; "{HEADER}{NET}")?;
    files.add("a.spef", spef.as_bytes())?;
    files.add("l.lib", LIB.as_bytes())?;
    files.add("v.v", NETLIST.as_bytes())?;
    files.add("c.txt", CONS.as_bytes())?;
    files.add("k.txt", BUFFERED.as_bytes())?;
    Ok(files)
}

/// The status of a run, what it printed and what it told.
pub(crate) type Ending<'a> = (u8, &'a str, &'a str);

/// Whether a run over these files ends so, where the outputs move so many bytes a call, and these calls of standard
/// output and of standard error fail.
pub(crate) fn ends_over(
    alloc: Global,
    line: &str,
    files: &mut MemFiles,
    chunk: usize,
    failing: (&[u64], &[u64]),
    wanted: Ending<'_>,
) -> Result<bool, Fail>
    requires { 1 ≤ chunk }
{
    let (status, printed, told) = wanted;
    let words = words_of(alloc, line)?;
    let mut out = MemOut::new(alloc, chunk, failing.0)?;
    let mut err = MemOut::new(alloc, chunk, failing.1)?;
    let found = run(alloc, &words, files, &mut out, &mut err);
    Ok(found == status && out.as_bytes() == printed.as_bytes() && err.as_bytes() == told.as_bytes())
}

/// The status of a run over these files, and what it prints.
pub(crate) fn printed(
    alloc: Global,
    line: &str,
    files: &mut MemFiles,
) -> Result<(u8, String), Fail> {
    let words = words_of(alloc, line)?;
    let mut out = MemOut::new(alloc, 4096, &[])?;
    let mut err = MemOut::new(alloc, 4096, &[])?;
    let status = run(alloc, &words, files, &mut out, &mut err);
    Ok((status, String::from_utf8_lossy(alloc, out.as_bytes())?))
}
