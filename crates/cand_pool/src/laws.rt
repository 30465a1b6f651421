//! Laws of pools. A function here does nothing: its contract is the law, which a proof may cite.

ghost use Rattle.cand_pool.specs.Laws.{KeptCovers, KeptRises, KeptTaken, UnionKeepsOrder, UnionTaken, UnionHasAll, UnionIsUndominated, UnionRises};

/// What is kept of a list in order of c is of the list, rises in q, and dominates each candidate of the list.
pub fn kept_covers()
    ensures covers { KeptCovers }
    ensures rises { KeptRises }
    ensures taken { KeptTaken }
{}

/// The union of two lists in order of c is in order of c, and has just the candidates of both. So those that are kept
/// of it are the undominated ones of both lists together, and none of them dominates another where of equal c the
/// greater q comes first in both lists.
pub fn union_undominated()
    ensures order { UnionKeepsOrder }
    ensures taken { UnionTaken }
    ensures all { UnionHasAll }
    ensures undominated { UnionIsUndominated }
    ensures rises { UnionRises }
{}
