//! The nets and the instances of a structural module.

use std::alloc::Global;
use std::test::Fail;
use ver_file::read_module;
use ver_module::{Instance, LinkRef, Module, Net, PortDir, Range, Runs};

/// The module of a text.
fn module_of(alloc: Global, text: &str) -> Result<Module, Fail> {
    let bytes = text.as_bytes();
    if bytes.len() > 1 << 20 {
        return Err("a long text".into());
    }
    match read_module(alloc, bytes) {
        Ok(module) => Ok(module),
        Err(_) => Err("no module".into()),
    }
}

static MODULE: &str = "module m (input [1:0] a, b, output \\c! );
BUF u (.A( a[0] ), .B(), .C({a, x}), .D(b), .E(1'b0), .F(\\c! ));
supply0 g; assign x = b[1:0], y = {2{g}};
endmodule
";

/// A net's name, its identifier's, its bit, whether it is escaped, its direction, and whether it is a supply.
type Wire = (
    &'static str,
    &'static str,
    Option<u32>,
    bool,
    Option<PortDir>,
    bool,
);

static WIRES: [Wire; 8] = [
    ("a[1]", "a", Some(1), false, Some(PortDir::Input), false),
    ("a[0]", "a", Some(0), false, Some(PortDir::Input), false),
    ("b[1]", "b", Some(1), false, Some(PortDir::Input), false),
    ("b[0]", "b", Some(0), false, Some(PortDir::Input), false),
    ("c!", "c!", None, true, Some(PortDir::Output), false),
    ("x", "x", None, false, None, false),
    ("g", "g", None, false, None, true),
    ("y", "y", None, false, None, false),
];

fn is_wire(net: &Net<'_>, wire: &Wire) -> bool {
    let (name, base, bit, escaped, port, supply) = *wire;
    net.is_named(name.as_bytes())
        && net.base == base.as_bytes()
        && net.bit == bit
        && net.escaped == escaped
        && net.port == port
        && net.supply == supply
}

/// Whether the net of a number is this one.
fn has_net(module: &Module, id: u32, wire: &Wire) -> bool {
    (id as usize) < module.net_count()
        && is_wire(&module.net(id), wire)
        && module.find_net(wire.0.as_bytes()) == Some(id)
}

/// These nets without the first of them, which are to be those of a run.
fn behind(run: Range, nets: &[u32]) -> Option<&[u32]> {
    let mut left = nets;
    'net: for at in 0..run.count() {
        let (first, rest) = left.split_first()?;
        if run.bit(at) != *first {
            return None;
        }
        left = rest;
    }
    Some(left)
}

/// Whether runs have exactly these nets, in order.
fn have_nets(runs: &Runs, nets: &[u32]) -> bool {
    let mut left = nets;
    'run: for run in runs.as_slice() {
        let Some(rest) = behind(*run, left) else {
            return false;
        };
        left = rest;
    }
    left.is_empty()
}

#[test]
fn nets(rt: HostRuntime) -> Result<(), Fail> {
    let module = module_of(rt.alloc(), MODULE)?;
    assert!(rt; module.name() == b"m".as_slice());
    assert!(rt; module.net_count() == 8);
    for (id, wire) in WIRES.iter().enumerate() {
        assert!(rt; has_net(&module, id as u32, wire), "{}", wire.0);
    }
    assert!(rt; module.find_net(b"a") == None);
    assert!(rt; have_nets(module.assigned(), &[5, 2, 3, 7, 6]));
    Ok(())
}

/// A pin's name, the text of its connection, and the nets of its link; `None`: it is a link to the net of the number.
static PINS: [(&str, &str, Option<u32>, &[u32]); 6] = [
    ("A", "a[0]", Some(1), &[]),
    ("B", "", None, &[]),
    ("C", "{a, x}", None, &[0, 1, 5]),
    ("D", "b", None, &[2, 3]),
    ("E", "1'b0", None, &[]),
    ("F", "\\c!", Some(4), &[]),
];

fn is_link(link: LinkRef<'_>, connection: &str, one: Option<u32>, nets: &[u32]) -> bool {
    match link {
        LinkRef::Open => connection.is_empty(),
        LinkRef::One(net) => one == Some(net),
        LinkRef::Many(many) => one.is_none() && have_nets(many, nets),
    }
}

/// Whether the pin of a number is this one.
fn has_pin(instance: &Instance<'_>, at: usize, pin: &(&str, &str, Option<u32>, &[u32])) -> bool {
    if at >= instance.len() {
        return false;
    }
    let (name, connection, one, nets) = *pin;
    let found = instance.pin(at);
    found.name == name.as_bytes()
        && MODULE.as_bytes().get(found.span.from..found.span.to) == Some(connection.as_bytes())
        && is_link(found.link, connection, one, nets)
}

#[test]
fn instances(rt: HostRuntime) -> Result<(), Fail> {
    let module = module_of(rt.alloc(), MODULE)?;
    assert!(rt; module.instance_count() == 1);
    if module.instance_count() > 0 {
        let instance = module.instance(0);
        assert!(rt; instance.name == b"u".as_slice() && instance.cell == b"BUF".as_slice());
        assert!(rt; instance.len() == 6);
        for (at, pin) in PINS.iter().enumerate() {
            assert!(rt; has_pin(&instance, at, pin), "{}", pin.0);
        }
    }
    let (head, end) = (module.head_end(), module.end_at());
    assert!(rt;
        MODULE
            .as_bytes()
            .get(..head)
            .map(|head| head.ends_with(b"\\c! );"))
            == Some(true)
    );
    assert!(rt; MODULE.as_bytes().get(end..) == Some(b"endmodule\n".as_slice()));
    Ok(())
}
