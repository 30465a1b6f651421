//! Rows of constraints that name the cells of a node.

use std::alloc::Global;
use std::test::Fail;
use vg_cons::{NodeRef, allows, read_constraints};
use vg_scan::Name;

const PLACES: &str = "vgcons 2\nallow n1:2 INV\nallow n1:1 BUF \\BUF\nblock n1:3\n";

/// Texts, nodes, and the cells that a row names for a node.
static ALLOWED: [(&str, &str, &str, Option<&[&str]>); 6] = [
    ("vgcons 2", "n1", "1", None),
    (PLACES, "n1", "1", Some(&["BUF", "\\BUF"])),
    (PLACES, "n1", "2", Some(&["INV"])),
    (PLACES, "n1", "3", None),
    (PLACES, "n1", "", None),
    (PLACES, "n2", "1", None),
];

fn are_cells(cells: &[Name], wanted: &[&str]) -> bool {
    cells.len() == wanted.len()
        && cells
            .iter()
            .zip(wanted)
            .all(|(cell, name)| cell.as_bytes() == name.as_bytes())
}

fn allows_these(
    alloc: Global,
    text: &str,
    node: NodeRef<'_>,
    wanted: Option<&[&str]>,
) -> Result<bool, Fail> {
    if text.len() > 1000 {
        return Err("a long text".into());
    }
    let cons = read_constraints(alloc, text.as_bytes())?;
    match (allows(&cons, node), wanted) {
        (Some(cells), Some(wanted)) => Ok(are_cells(cells, wanted)),
        (None, None) => Ok(true),
        _ => Ok(false),
    }
}

#[test]
fn looks_up_allowed_cells(rt: HostRuntime) -> Result<(), Fail> {
    for (text, owner, leaf, wanted) in &ALLOWED {
        let node = NodeRef {
            owner: owner.as_bytes(),
            leaf: leaf.as_bytes(),
        };
        let found = allows_these(rt.alloc(), text, node, *wanted)?;
        assert!(rt; found, "{owner}:{leaf}");
    }
    Ok(())
}
