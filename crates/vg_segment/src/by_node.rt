//! The capacitors of a net in the order of its nodes.

ghost use Rattle.std.specs.Prelude.{◌≡◌, IfOk};
ghost use Rattle.std.specs.List.Sorted.{IsPermutation};
ghost use Rattle.vg_segment.specs.Segments.{AreByNode};

use std::alloc::Global;
use vg_num::{Memory, Row};

/// The same capacitors in the order of the nodes; those of one node stay in their order.
pub(crate) fn by_node(alloc: Global, caps: &[(u32, u64)]) -> Result<Row<(u32, u64)>, Memory>
    ensures sorted { IfOk result (λ sorted. AreByNode caps.now sorted) }
    ensures same { IfOk result (λ sorted. IsPermutation caps.now sorted) }
{
    let mut sorted = Vec::from_slice(alloc, caps)?;
    sorted.sort_by_key(|cap| cap.0)?;
    Ok(Row::from_vec(sorted))
}
