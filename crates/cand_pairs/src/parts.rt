//! What is known of a node while its branches come in.

ghost use Rattle.std.specs.Prelude.{◌≡◌, ◌+◌, ◌<◌, ◌≤◌, ◌^◌, Bool, true, length, IfOk};
ghost use Rattle.std.specs.List.{All, AllPairs};
ghost use Rattle.elmore.specs.Trees.{parent_of, resistance};
ghost use Rattle.elmore.specs.Problems.{is_live};
ghost use Rattle.elmore.specs.Pairs.{IsUndominated, IsPairAt, IsBelow};
ghost use Rattle.cand_pairs.specs.Merging.{Meets, Wires, IsSmallPair, IsModest};
ghost use Rattle.cand_pairs.specs.Parts.{AreExactAt, AreOpenFrom, IsJoined};

use crate::lists::{meet_all, through_wire};
use elmore::{Pair, Problem};
use std::alloc::Global;
use vg_num::Memory;

/// The undominated pairs of a node for a signal that is not inverted and for one that is.
#[derive(Drop)]
pub struct Classes {
    pub evens: Vec<Pair>,
    pub odds: Vec<Pair>,
}

/// One class of two live branches, the lower one through its wire.
fn join_class(alloc: Global, r: u64, upper: &[Pair], lower: &[Pair]) -> Result<Vec<Pair>, Memory>
    requires upper_rises { AllPairs IsBelow upper.now }
    requires upper_small { All IsModest upper.now }
    requires lower_rises { AllPairs IsBelow lower.now }
    requires lower_small { All IsSmallPair lower.now }
    requires r { r ≤ 10 ^ 12 }
    ensures { IfOk result (λ joined. IsJoined r upper.now lower.now joined.items) }
{
    let above = through_wire(alloc, r, lower)?;
    let joined = meet_all(alloc, upper, &above)?;
    Ok(joined)
}

/// Both classes of two live branches: the node comes in, with its pairs, to its parent. Answers `Memory` where there is
/// no room.
pub fn join_live(
    alloc: Global,
    p: &Problem,
    node: usize,
    upper: &Classes,
    lower: &Classes,
) -> Result<Classes, Memory>
    requires below_root { 0 < node }
    requires node { node < length p.now.tree.nodes }
    requires live { is_live p.now.tree.nodes p.now.sinks node ≡ true }
    requires upper { AreOpenFrom p.now (node + 1) (parent_of p.now.tree.nodes node) upper.now }
    requires lower { AreExactAt p.now node lower.now }
    ensures { IfOk result (AreOpenFrom p.now node (parent_of p.now.tree.nodes node)) }
{
    let r = p.tree.nodes.as_slice()[node].r;
    let evens = join_class(alloc, r, &upper.evens, &lower.evens)?;
    let odds = join_class(alloc, r, &upper.odds, &lower.odds)?;
    Ok(Classes { evens, odds })
}
