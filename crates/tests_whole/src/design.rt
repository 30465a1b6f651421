//! Nets of designs: their problems, and what they are without constraints.
ghost use Rattle.std.specs.Prelude.{◌≤◌, ◌^◌, length, IfOk};

use crate::files::{HEADER, LIB, NETLIST};
use design_read::read_design;
use elmore::{Allowed, Driver, Node, Problem, Sink};
use spef_file::SpefText;
use spef_wire::{Refusal, Refused};
use std::alloc::Global;
use std::test::Fail;
use vg_design::{BareNet, Design, NetProblem, TreeNames, bare_net, problem};
use vg_scan::Name;

/// A net whose inner node says where it is.
const NET: &str = "*D_NET n1 200
*CONN
*I u1:Z O
*I u2:A I
*N n1:1 *C 5 2
*CAP
1 n1:1 100
2 u2:A 100
*RES
1 u1:Z n1:1 1000
2 n1:1 u2:A 1000
*END
";

/// An inverter, before the buffer of the library.
const INV: &str = "cell (INV) { area : 1;
    pin (A) { direction : input; capacitance : 1; }
    pin (ZN) { direction : output; function : \"!A\";
      timing () { related_pin : \"A\"; intrinsic_rise : 10; intrinsic_fall : 10;
        rise_resistance : 0.5; fall_resistance : 0.5; } } }
  cell (BUF)";

/// The bytes of a short text.
fn bytes_of(alloc: Global, text: &str) -> Result<Vec<u8>, Fail>
    ensures { IfOk result (λ bytes. length bytes.items ≤ 2 ^ 28) }
{
    if text.len() > 1 << 20 {
        return Err("a long text".into());
    }
    Ok(Vec::from_slice(alloc, text.as_bytes())?)
}

/// The design of a net, a netlist and rows of constraints. Its library has a buffer and an inverter; the outputs `Z`
/// have a greatest load.
fn design(alloc: Global, net: &str, verilog: &str, rows: &str) -> Result<Design, Fail> {
    let spef = format!(in alloc; "{HEADER}{net}")?;
    let lib = LIB.replace(alloc, "cell (BUF)", INV)?;
    let lib = lib.replace(alloc, "pin (Z) {", "pin (Z) { max_capacitance : 202;")?;
    let cons = format!(in alloc; "vgcons 2\n{rows}\n")?;
    let text = SpefText::new(bytes_of(alloc, spef.as_str())?);
    let lib = bytes_of(alloc, lib.as_str())?;
    let verilog = bytes_of(alloc, verilog)?;
    let cons = bytes_of(alloc, cons.as_str())?;
    match read_design(alloc, text, &lib, &verilog, &cons) {
        Ok(design) => Ok(design),
        Err(_) => Err("no design".into()),
    }
}

/// The problem of the net `n1` under rows of constraints.
fn net_problem(alloc: Global, rows: &str) -> Result<NetProblem, Fail> {
    let design = design(alloc, NET, NETLIST, rows)?;
    let net = Name::from_bytes(alloc, b"n1")?;
    match problem(alloc, &design, &net) {
        Ok(found) => Ok(found),
        Err(_) => Err("refused".into()),
    }
}

/// Whether these are the names of nodes.
fn are_names(names: &TreeNames, wanted: &[(&str, &str)]) -> bool {
    for (at, (owner, leaf)) in wanted.iter().enumerate() {
        if at >= names.len()
            || names.owner(at) != owner.as_bytes()
            || names.leaf(at) != leaf.as_bytes()
        {
            return false;
        }
    }
    names.len() == wanted.len()
}

static NODES: [Node; 3] = [
    Node {
        parent: 0,
        r: 0,
        c: 0,
    },
    Node {
        parent: 0,
        r: 1_000_000,
        c: 100_000,
    },
    Node {
        parent: 1,
        r: 1_000_000,
        c: 102_000,
    },
];

static SINKS: [Option<Sink>; 3] = [
    None,
    None,
    Some(Sink {
        required: 400_000_000_000,
        inverted: true,
    }),
];

const DRIVER: Driver = Driver {
    k: 10_000_000_000,
    r: 1_000_000,
    arrival: 5_000_000_000,
    limit: Some(202_000),
};

/// Whether the repeaters are the buffer, which has a greatest load, and the inverter, which has none.
fn has_repeaters(problem: &Problem) -> bool {
    let [buffer, inverter] = problem.reps.as_slice() else {
        return false;
    };
    !buffer.inverts
        && buffer.cin == 2_000
        && buffer.limit == Some(202_000)
        && inverter.inverts
        && inverter.k == 10_000_000_000
        && inverter.limit.is_none()
}

fn is_worked(alloc: Global) -> Result<bool, Fail> {
    let found = net_problem(
        alloc,
        "required u2:A 400\nwant u2:A inverted\narrival u1:Z 5",
    )?;
    let problem = &found.problem;
    Ok(
        problem.tree.nodes.as_slice() == NODES.as_slice()
            && problem.sinks.as_slice() == SINKS.as_slice()
            && problem.driver == DRIVER
            && has_repeaters(problem)
            && are_names(&found.names, &[("u1", "Z"), ("n1", "1"), ("u2", "A")]),
    )
}

#[test]
fn parts_of_a_problem(rt: HostRuntime) -> Result<(), Fail> {
    assert!(rt; is_worked(rt.alloc())?);
    Ok(())
}

/// Rows of constraints, whether the inner node is a place, and the numbers of the repeaters that it allows, if not all.
static NODE_ROWS: [(&str, bool, Option<&[u32]>); 8] = [
    ("", true, None),
    ("block n1:1", false, None),
    ("block_box 5 2 0 0", false, None),
    ("block_box 4.999 2 0 0", true, None),
    ("allow n1:1 INV", true, Some(&[1])),
    ("allow n1:1 INV BUF", true, Some(&[0, 1])),
    ("allow n1:1 DRV", true, Some(&[])),
    ("allow n1:2 INV", true, None),
];

/// Whether a node allows these repeaters.
fn allows(allowed: &Allowed, wanted: Option<&[u32]>) -> bool {
    match allowed {
        Allowed::All => wanted.is_none(),
        Allowed::Only(numbers) => wanted == Some(numbers.as_slice()),
    }
}

fn is_node_so(
    alloc: Global,
    rows: &str,
    place: bool,
    wanted: Option<&[u32]>,
) -> Result<bool, Fail> {
    let rows = format!(in alloc; "required u2:A 400\n{rows}")?;
    let found = net_problem(alloc, rows.as_str())?;
    let problem = &found.problem;
    let [root, inner, sink] = problem.allowed.as_slice() else {
        return Ok(false);
    };
    Ok(
        problem.places.as_slice() == [false, place, false].as_slice()
            && allows(root, None)
            && allows(inner, wanted)
            && allows(sink, None),
    )
}

#[test]
fn rows_of_nodes(rt: HostRuntime) -> Result<(), Fail> {
    for (rows, place, wanted) in &NODE_ROWS {
        assert!(rt; is_node_so(rt.alloc(), rows, *place, *wanted)?, "{rows}");
    }
    Ok(())
}

/// A net whose second sink is nearer to the driver than its first.
const FORK: &str = "*D_NET n1 0
*CONN
*I u1:Z O
*I u2:A I
*I u3:A I
*RES
1 n1:1 u2:A 1000
2 u1:Z n1:1 1000
3 u3:A u1:Z 500
*END
";

const FORK_NETLIST: &str = "module top (in1);
input in1;
DRV u1 (.A(in1), .Z(n1));
BUF u2 (.A(n1)), u3 (.A(n1));
endmodule
";

/// Whether the sinks of a net are these.
fn are_sinks(net: &BareNet, owners: &[&str]) -> bool {
    for (at, owner) in owners.iter().enumerate() {
        let Some(node) = net.sinks.as_slice().get(at) else {
            return false;
        };
        let node = *node as usize;
        if node >= net.names.len() || net.names.owner(node) != owner.as_bytes() {
            return false;
        }
    }
    net.sinks.len() == owners.len() && net.tree.nodes.len() == 4 && net.driver.r == DRIVER.r
}

/// Whether the net is given without its constraints, and has no problem, since a sink of this owner is not constrained.
fn is_bare(alloc: Global, rows: &str, unconstrained: &[u8]) -> Result<bool, Fail> {
    let design = design(alloc, FORK, FORK_NETLIST, rows)?;
    let name = Name::from_bytes(alloc, b"n1")?;
    let Ok(net) = bare_net(alloc, &design, &name) else {
        return Ok(false);
    };
    let Err(Refused::Net(Refusal::Unconstrained(sink))) = problem(alloc, &design, &name) else {
        return Ok(false);
    };
    Ok(are_sinks(&net, &["u3", "u2"]) && sink.owner.as_bytes() == unconstrained)
}

#[test]
fn nets_without_constraints(rt: HostRuntime) -> Result<(), Fail> {
    assert!(rt; is_bare(rt.alloc(), "", b"u2")?);
    assert!(rt; is_bare(rt.alloc(), "required u2:A 400", b"u3")?);
    Ok(())
}

/// Whether a net has no tree, whatever its constraints.
fn is_refused(alloc: Global, net: &str, number: u8) -> Result<bool, Fail> {
    let design = design(alloc, net, NETLIST, "")?;
    let name = Name::from_bytes(alloc, b"n1")?;
    let Err(Refused::Net(refusal)) = bare_net(alloc, &design, &name) else {
        return Ok(false);
    };
    Ok(refusal.number() == number)
}

#[test]
fn refusals_without_constraints(rt: HostRuntime) -> Result<(), Fail> {
    assert!(rt; is_refused(rt.alloc(), "", 1)?);
    assert!(rt; is_refused(rt.alloc(), FORK, 8)?);
    let large = NET.replace(rt.alloc(), "1000", "1e10")?;
    assert!(rt; is_refused(rt.alloc(), large.as_str(), 16)?);
    Ok(())
}

/// Of `examples/soc.spef` the names of three nets, by its name map, and their heads; the lines between are left out.
const NAMED_NETS: &str = "*NAME_MAP
*1 clk
*18 ctl/sel_n
*19 next\\[0\\]
*D_NET *1 0.01616
*END
*D_NET *18 0.18264
*END
*D_NET *19 0.00788
*END
";

/// Whether a design has nets of these names, in this order.
fn has_nets(design: &Design, names: &[&str]) -> bool {
    for (at, name) in names.iter().enumerate() {
        if at >= design.net_count() || design.net_name(at) != name.as_bytes() {
            return false;
        }
    }
    design.net_count() == names.len()
}

#[test]
fn nets_of_a_design(rt: HostRuntime) -> Result<(), Fail> {
    let named = design(rt.alloc(), NAMED_NETS, NETLIST, "")?;
    assert!(rt; has_nets(&named, &["clk", "ctl/sel_n", "next[0]"]));
    let empty = design(rt.alloc(), "", NETLIST, "")?;
    assert!(rt; has_nets(&empty, &[]));
    Ok(())
}
