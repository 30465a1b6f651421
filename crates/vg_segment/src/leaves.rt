//! The least free leaves of a net.

ghost use Rattle.std.specs.Prelude.{◌≡◌, ℕ, ◌+◌, ◌<◌, ◌≤◌, length, slice_index_or, IfOk};
ghost use Rattle.std.specs.Fmt.{decimal};
ghost use Rattle.std.specs.List.{All};
ghost use Rattle.spef_nodes.specs.Nodes.{ParNode};
ghost use Rattle.vg_segment.specs.Segments.{node_of, AreLeastFree};
ghost use Rattle.vg_segment.specs.Leaves.{set_marks, AreMarked, AreLeastUnmarked};

use spef_net::ParNet;
use std::alloc::Global;
use vg_num::Memory;

/// The number from 1 to `last` of which a leaf is the decimal text; 0 where there is none.
fn leaf_number(leaf: &[u8], last: usize) -> usize
    requires { last ≤ 65536 }
    ensures text { 0 < result → leaf.now ≡ decimal result }
    ensures found { (k : ℕ) → 0 < k → k ≤ last → leaf.now ≡ decimal k → result ≡ k }
    ensures within { result ≤ last }
{
    if leaf.is_empty() || leaf[0] == b'0' {
        return 0;
    }
    let mut number = 0;
    'digit: for at in 0..leaf.len() {
        let byte = leaf[at];
        if byte < b'0' || byte > b'9' {
            return 0;
        }
        number = number * 10 + usize::from(byte - b'0');
        if number > last {
            return 0;
        }
    }
    number
}

/// The number from 1 to `last` that is the leaf of the net's node of a number; 0 where there is none.
fn taken_by(net: &ParNet, at: usize, last: usize) -> usize
    requires there { at < length net.now.nodes }
    requires few { last ≤ 65536 }
    ensures name { (other : ParNode) → 0 < result
        → (slice_index_or net.now.nodes at other).name ≡ node_of net.now.name result }
    ensures found { (k : ℕ) (other : ParNode) → 0 < k → k ≤ last
        → (slice_index_or net.now.nodes at other).name ≡ node_of net.now.name k → result ≡ k }
    ensures within { result ≤ last }
{
    if net.nodes.owner(at) != net.name.as_bytes() {
        return 0;
    }
    leaf_number(net.nodes.leaf(at), last)
}

/// Marks, of the numbers up to `last`, 0 and those that are leaves of the net's nodes.
fn mark_taken(alloc: Global, net: &ParNet, last: usize) -> Result<Vec<bool>, Memory>
    requires { last ≤ 65536 }
    ensures { IfOk result (λ marks. AreMarked net.now.name net.now.nodes last marks.items) }
{
    let mut marks = vec![in alloc; false; last + 1]?;
    marks[0] = true;
    'node: for at in 0..net.nodes.len() {
        let number = taken_by(net, at, last);
        marks[number] = true;
    }
    Ok(marks)
}

/// The first `count` numbers without a mark.
fn least_unmarked(alloc: Global, marks: &[bool], count: usize) -> Result<Vec<u32>, Memory>
    requires few { length marks.now ≤ 65537 }
    requires enough { count + set_marks marks.now ≤ length marks.now }
    ensures { IfOk result (λ leaves. AreLeastUnmarked marks.now count leaves.items) }
{
    let mut leaves = Vec::with_capacity(alloc, count)?;
    'number: for k in 0..marks.len() {
        if leaves.len() == count {
            return Ok(leaves);
        }
        if !marks[k] {
            leaves.push(k as u32)?;
        }
    }
    Ok(leaves)
}

/// The least free leaves of a net from 1 on, so many of them. Answers `Memory` where there is no room.
pub(crate) fn free_leaves(alloc: Global, net: &ParNet, count: usize) -> Result<Vec<u32>, Memory>
    requires { length net.now.nodes + count ≤ 65536 }
    ensures free { IfOk result (λ leaves. AreLeastFree net.now leaves.items) }
    ensures count { IfOk result (λ leaves. length leaves.items ≡ count) }
    ensures few { IfOk result (λ leaves. All (λ leaf. leaf ≤ 65536) leaves.items) }
{
    let marks = mark_taken(alloc, net, net.nodes.len() + count)?;
    let leaves = least_unmarked(alloc, marks.as_slice(), count)?;
    Ok(leaves)
}
