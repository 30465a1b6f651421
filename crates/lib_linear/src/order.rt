//! The order of repeaters: by rising resistance, then by the bytes of their cells' names.

ghost use Rattle.std.specs.Prelude.{◌≡◌, OnOk};
ghost use Rattle.lib_linear.specs.Repeaters.{IsInOrder, rank_cmp};

use crate::repeater::Repeater;
use std::cmp::Ordering;
use vg_num::Memory;

/// The order of two repeaters.
fn rank(a: &Repeater, b: &Repeater) -> Ordering
    ensures { result ≡ rank_cmp a.now b.now }
{
    a.rep
        .r
        .cmp(&b.rep.r)
        .then_with(|| a.cell.as_bytes().cmp(b.cell.as_bytes()))
}

/// Puts repeaters into their order.
pub(crate) fn put_in_order(repeaters: &mut Vec<Repeater>) -> Result<(), Memory>
    ensures { OnOk result (IsInOrder repeaters.old.items repeaters.new.items) }
{
    repeaters.sort_by(rank)?;
    Ok(())
}
