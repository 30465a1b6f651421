//! SPEF names: what they stand for, where a node's text is split, how they are printed, and how they are numbered.
ghost use Rattle.vg_scan.specs.Printed.{IsPrintable};

use name_tables::Names;
use std::alloc::Global;
use std::test::Fail;
use vg_scan::{
    Chars, NameFault, Span, index_of, inner_name, node_name, port_name, print_spef_name, spef_name,
    split_node,
};

const CHARS: Chars = Chars {
    divider: b'.',
    delimiter: b':',
    bus_left: b'<',
    bus_right: b'>',
};

/// Texts, and the names that they stand for, if they are names.
static NAMES: [(&[u8], Option<&[u8]>); 10] = [
    (b"u1.u2", Some(b"u1/u2")),
    (b"u1\\.u2", Some(b"u1.u2")),
    (b"d<3>", Some(b"d[3]")),
    (b"d\\<3\\>", Some(b"d<3>")),
    (b"a\\\\.b", Some(b"a\\/b")),
    (b"x\\\"y", Some(b"x\"y")),
    (b"", None),
    (b"a\\", None),
    (b"a\"b", None),
    (b"\\\\\\", None),
];

fn stands_for(alloc: Global, text: &[u8], name: Option<&[u8]>) -> bool {
    match spef_name(alloc, text, &CHARS) {
        Ok(found) => name == Some(found.as_bytes()),
        Err(fault) => name.is_none() && fault == NameFault::Bad,
    }
}

#[test]
fn canonical_names(rt: HostRuntime) {
    for (text, name) in &NAMES {
        assert!(rt; stands_for(rt.alloc(), text, *name), "{text:?}");
    }
}

/// Where the two parts of a node's text stand.
type Parts = Option<((usize, usize), (usize, usize))>;

static NODES: [(&[u8], Parts); 5] = [
    (b"u1:u2:A", Some(((0, 5), (6, 7)))),
    (b"u1:u2\\:A", Some(((0, 2), (3, 8)))),
    (b"u1\\\\:A", Some(((0, 4), (5, 6)))),
    (b"port\\:A", None),
    (b"", None),
];

fn parts_of(text: &[u8]) -> Parts {
    let (owner, leaf) = split_node(text, b':')?;
    Some(((owner.from, owner.to), (leaf.from, leaf.to)))
}

#[test]
fn nodes(rt: HostRuntime) {
    for (text, parts) in &NODES {
        assert!(rt; parts_of(text) == *parts, "{text:?}");
    }
}

/// The owner and the leaf of a node, if a text names one.
type Named = Option<(&'static [u8], &'static [u8])>;

/// Texts, and what they name as a node inside a net, as a node, and as a port.
static NODE_NAMES: [(&[u8], Named, Named, Option<&[u8]>); 5] = [
    (
        b"u1.u2:A<1>",
        Some((b"u1/u2", b"A[1]")),
        Some((b"u1/u2", b"A[1]")),
        None,
    ),
    (b"d\\:<3>", None, Some((b"d:[3]", b"")), Some(b"d:[3]")),
    (b"d\\:A", None, Some((b"d:A", b"")), Some(b"d:A")),
    (b"u1:", None, None, None),
    (b"u1:A", Some((b"u1", b"A")), Some((b"u1", b"A")), None),
];

fn is_inner(alloc: Global, text: &[u8], named: Named) -> bool {
    match inner_name(alloc, text, &CHARS) {
        Ok(node) => named == Some((node.owner.as_bytes(), node.leaf.as_bytes())),
        Err(fault) => named.is_none() && fault == NameFault::Bad,
    }
}

fn is_node(alloc: Global, text: &[u8], named: Named) -> bool {
    match node_name(alloc, text, &CHARS) {
        Ok(node) => named == Some((node.owner.as_bytes(), node.leaf.as_bytes())),
        Err(fault) => named.is_none() && fault == NameFault::Bad,
    }
}

fn is_port(alloc: Global, text: &[u8], name: Option<&[u8]>) -> bool {
    match port_name(alloc, text, &CHARS) {
        Ok(port) => name == Some(port.as_bytes()),
        Err(fault) => name.is_none() && fault == NameFault::Bad,
    }
}

#[test]
fn node_names(rt: HostRuntime) {
    let alloc = rt.alloc();
    for (text, inner, node, port) in &NODE_NAMES {
        assert!(rt;
            is_inner(alloc, text, *inner)
                && is_node(alloc, text, *node)
                && is_port(alloc, text, *port),
            "{text:?}"
        );
    }
}

fn prints(alloc: Global, name: &[u8], text: &[u8]) -> Result<bool, Fail>
    requires { IsPrintable name.now }
{
    let mut printed = Vec::new(alloc);
    print_spef_name(name, &CHARS, &mut printed)?;
    Ok(printed.as_slice() == text)
}

#[test]
fn printed_names(rt: HostRuntime) -> Result<(), Fail> {
    assert!(rt; prints(rt.alloc(), b"u1/d[3]", b"u1\\/d<3>")?);
    assert!(rt; prints(rt.alloc(), b"*1", b"\\*1")?);
    assert!(rt; prints(rt.alloc(), b"a.b<", b"a\\.b\\<")?);
    Ok(())
}

fn numbers_names(alloc: Global) -> Result<bool, Fail> {
    let mut names = Names::new(alloc);
    let rows: [(&[u8], u32); 5] = [(b"a", 0), (b"b", 1), (b"a", 0), (b"", 2), (b"c", 3)];
    for (text, id) in rows {
        if names.len() >= 4 || names.intern(text)? != id {
            return Ok(false);
        }
    }
    Ok(names.len() == 4 && names.find(b"c") == Some(3) && names.find(b"d").is_none())
}

#[test]
fn numbered_names(rt: HostRuntime) -> Result<(), Fail> {
    assert!(rt; numbers_names(rt.alloc())?);
    Ok(())
}

#[test]
fn references(rt: HostRuntime) {
    assert!(rt; index_of(b"*12") == Some(b"12".as_slice()));
    for text in [b"*".as_slice(), b"12", b"\\*12", b"*1a", b""] {
        assert!(rt; index_of(text).is_none(), "{text:?}");
    }
}
