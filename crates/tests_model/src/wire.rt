//! Delays at one node of worked nets, in mΩ, aF and zs, and nodes that are no tree.

use crate::problems::{LEAF, ROOT, TRUNK, tree_of};
use elmore::{Node, Scratch, Tree, wire_delay};
use std::alloc::Global;
use std::test::Fail;
use vg_num::Row;

/// A fork with a branch that ends at no sink, and the delay at each node.
static FORK: [(Node, i128); 5] = [
    (ROOT, 0),
    (TRUNK, 1_254_000_000_000),
    (LEAF, 1_356_000_000_000),
    (LIGHT_LEAF, 1_306_000_000_000),
    (DEAD_BRANCH, 1_354_000_000_000),
];

const LIGHT_LEAF: Node = Node { c: 52_000, ..LEAF };

const DEAD_BRANCH: Node = Node {
    parent: 1,
    r: 100_000,
    c: 1_000_000,
};

fn delay_at(alloc: Global, v: u32) -> Result<i128, Fail> {
    let tree = tree_of(alloc, &[ROOT, TRUNK, LEAF, LIGHT_LEAF, DEAD_BRANCH])?;
    if v as usize >= tree.nodes.len() || !tree.is_within_limits() {
        return Err("no such node, or beyond the limits".into());
    }
    let mut scratch = Scratch::new(alloc, tree.nodes.len())?;
    Ok(wire_delay(&tree, v, &mut scratch))
}

#[test]
fn delays_at_each_node(rt: HostRuntime) -> Result<(), Fail> {
    for (v, (_, delay)) in (0..5).zip(&FORK) {
        assert_eq!(rt; delay_at(rt.alloc(), v)?, *delay);
    }
    Ok(())
}

static NO_TREES: [&[Node]; 4] = [
    &[],
    &[Node {
        parent: 1,
        r: 0,
        c: 0,
    }],
    &[Node {
        parent: 0,
        r: 1,
        c: 0,
    }],
    &[
        ROOT,
        Node {
            parent: 1,
            r: 0,
            c: 0,
        },
    ],
];

#[test]
fn refuses_what_is_no_tree(rt: HostRuntime) -> Result<(), Fail> {
    for nodes in &NO_TREES {
        let tree = Tree::new(Row::from_vec(nodes.to_vec(rt.alloc())?));
        assert!(rt; tree.is_none());
    }
    Ok(())
}

const AT_LIMITS: Node = Node {
    parent: 0,
    r: 1_000_000_000_000,
    c: 100_000_000_000,
};

/// The resistance and the capacitance of one node more, and whether the tree is within the limits.
static MORE: [(u64, u128, bool); 4] = [
    (0, 0, true),
    (1, 0, false),
    (0, 1, false),
    (u64::MAX, u128::MAX, false),
];

#[test]
fn knows_the_limits(rt: HostRuntime) -> Result<(), Fail> {
    for (r, c, within) in MORE {
        let more = Node { parent: 0, r, c };
        let tree = tree_of(rt.alloc(), &[ROOT, AT_LIMITS, more])?;
        assert_eq!(rt; tree.is_within_limits(), within);
    }
    Ok(())
}
