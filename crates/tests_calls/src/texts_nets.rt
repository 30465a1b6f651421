//! The nodes and the parts of a net as they are read, and nets as they are written.

use spef_file::{SpefText, index};
use spef_net::{ConnKind, Direction, Nodes, ParConn, ParNet, read_net};
use spef_write::{has_small_charge, write_net};
use std::alloc::Global;
use std::test::Fail;

/// Seventeen lines: a net begins at line 18, and its first line is line 19.
const HEADER: &str = "*SPEF \"IEEE 1481\"
*DESIGN \"top\"
*DATE \"now\"
*VENDOR \"v\"
*PROGRAM \"p\"
*VERSION \"1\"
*DESIGN_FLOW \"x\"
*DIVIDER /
*DELIMITER :
*BUS_DELIMITER [ ]
*T_UNIT 1 NS
*C_UNIT 1 FF
*R_UNIT 1 OHM
*L_UNIT 1 HENRY
*NAME_MAP
*1 n
*2 u1
";

/// A copy of a short text, without its comments.
fn text_of(alloc: Global, text: &str) -> Result<SpefText, Fail> {
    if text.len() > 2000 {
        return Err("a long text".into());
    }
    let bytes = Vec::from_slice(alloc, text.as_bytes())?;
    Ok(SpefText::new(bytes))
}

/// The first net of a file.
fn read(alloc: Global, text: &str) -> Result<ParNet, Fail> {
    let text = text_of(alloc, text)?;
    let index = index(alloc, &text)?;
    if index.sections.len() == 0 {
        return Err("no net".into());
    }
    let net = read_net(alloc, &text, &index, 0)?;
    Ok(net)
}

const NET: &str = "*D_NET *1 3.5 // lines of *CAP stand before those of *CONN
*CAP
1 n:1 0.5
2 *2:a m:3 1:2:3 /* and
*END */
*CONN
*I *2:a O  *D INV // a cell
*P p I
*N *1:2 *C 1  2
*N n:2 x
*RES
1 n:1 u1:a 4
2 n:2 p 5
*INDUC
?
*END
";

/// The owner and the leaf of each node, whether it is inside the net, and its note.
static NODES: [(&[u8], &[u8], bool, &[u8]); 4] = [
    (b"u1", b"a", false, b"*D INV"),
    (b"p", b"", false, b""),
    (b"n", b"1", true, b""),
    (b"n", b"2", true, b"*C 1  2"),
];

const CONNS: [ParConn; 2] = [
    ParConn {
        kind: ConnKind::Pin,
        node: 0,
        direction: Direction::Out,
    },
    ParConn {
        kind: ConnKind::Port,
        node: 1,
        direction: Direction::In,
    },
];

fn has_nodes(nodes: &Nodes) -> bool {
    if nodes.len() != 4 {
        return false;
    }
    for (at, (owner, leaf, inner, note)) in NODES.iter().enumerate() {
        if at >= nodes.len()
            || nodes.owner(at) != *owner
            || nodes.leaf(at) != *leaf
            || nodes.is_inner(at) != *inner
            || nodes.note(at) != *note
        {
            return false;
        }
    }
    true
}

fn has_parts(net: &ParNet) -> bool {
    net.conns.as_slice() == CONNS.as_slice()
        && net.caps.as_slice() == [(2, 500), (0, 2000)].as_slice()
        && net.ress.as_slice() == [(2, 0, 4000), (3, 1, 5000)].as_slice()
        && net.inductive
        && !net.reduced
}

fn is_net(alloc: Global, text: &str) -> Result<bool, Fail> {
    let net = read(alloc, text)?;
    Ok(has_nodes(&net.nodes) && has_parts(&net))
}

#[test]
fn a_net(rt: HostRuntime) -> Result<(), Fail> {
    let text = format!(in rt.alloc(); "{HEADER}{NET}")?;
    assert!(rt; is_net(rt.alloc(), text.as_str())?);
    let text = text.replace(rt.alloc(), "\n", "\r\n")?;
    assert!(rt; is_net(rt.alloc(), text.as_str())?);
    Ok(())
}

/// Sections, and what is written of their nets.
static SECTIONS: [(&str, &str); 4] = [
    // capacitors of one node are one, where the first of them stands
    (
        "*D_NET *1 3.5 // what a tool says of it
*CONN
*I *2:a O  *D INV // a cell
*P p I
*N n:2 *C 1  2
*CAP
1 n:1 0.5
2 *2:a m:3 1:2:3
3 *2:a 1.5
*RES
1 n:1 u1:a 4
2 n:2 p 5000
*END
",
        "*D_NET n 4
*CONN
*I u1:a O *D INV
*P p I
*N n:2 *C 1  2
*CAP
1 n:1 0.5
2 u1:a 3.5
*RES
1 n:1 u1:a 4
2 n:2 p 5000
*END",
    ),
    // escaped names and bits of buses; capacitors that come to 0 have no line
    (
        "*D_NET data[3] 0
*CONN
*I top/u\\.1:A[0] B *L 1 *D BUF
*P data[3] O
*CAP
1 data[3]:1 0
2 top/u\\.1:A[0] 0.0004
*RES
1 data[3]:1 data[3] 0.001
*END
",
        "*D_NET data[3] 0
*CONN
*I top\\/u\\.1:A[0] B *L 1 *D BUF
*P data[3] O
*RES
1 data[3]:1 data[3] 0.001
*END",
    ),
    // a capacitor of 0 beside one that is not
    (
        "*D_NET n 1
*CONN
*P p I
*CAP
1 p 0
2 n:7 0.25
3 n:8 0
*END
",
        "*D_NET n 0.25
*CONN
*P p I
*CAP
1 n:7 0.25
*END",
    ),
    // no capacitors and no resistors
    (
        "*D_NET e 0
*CONN
*P e I
*END
",
        "*D_NET e 0
*CONN
*P e I
*END",
    ),
];

/// What is written of the net of a section, behind what is there.
fn written(alloc: Global, section: &str) -> Result<Vec<u8>, Fail> {
    let text = format!(in alloc; "{HEADER}{section}")?;
    let net = read(alloc, text.as_str())?;
    let text = text_of(alloc, text.as_str())?;
    let index = index(alloc, &text)?;
    if net.reduced || net.inductive || !has_small_charge(&net) {
        return Err("a net that is not written".into());
    }
    let mut to = Vec::from_slice(alloc, b"> ")?;
    write_net(alloc, &net, &index.header, &mut to)?;
    Ok(to)
}

#[test]
fn written_nets(rt: HostRuntime) -> Result<(), Fail> {
    for (section, expected) in &SECTIONS {
        let to = written(rt.alloc(), section)?;
        let expected = format!(in rt.alloc(); "> {expected}")?;
        assert!(rt; to.as_slice() == expected.as_bytes(), "{section}");
    }
    Ok(())
}
