//! Of the pairs that a repeater makes of a list the one with the most time.

ghost use Rattle.std.specs.Prelude.{◌≡◌, ◌↔◌, ◌⊎◌, ◌++◌, ◌∷◌, [], List, ◌≤ℤ◌, Some, IsTrue};
ghost use Rattle.std.specs.List.{All};
ghost use Rattle.elmore.specs.Legal.{IsWithin};
ghost use Rattle.elmore.specs.Problems.{IsRepWithin};
ghost use Rattle.cand_pairs.specs.Candidates.{with_cell};
ghost use Rattle.cand_pairs.specs.Merging.{IsGreatestOf, IsModest};
ghost use Rattle.elmore.specs.declared.pair.Pair.{Pair as PairSpec};

use elmore::{Pair, Rep};

/// Whether a load is within a limit, if there is one.
fn is_within(limit: Option<u64>, load: u64) -> bool
    ensures { IsTrue result ↔ IsWithin limit load }
{
    match limit {
        Some(most) => load <= most,
        None => true,
    }
}

/// A pair as it is above the cell.
fn above_cell(rep: &Rep, pair: &Pair) -> Pair
    requires rep { IsRepWithin rep.now }
    requires limits { IsModest pair.now }
    ensures { result ≡ with_cell (Some rep.now) pair.now }
{
    Pair {
        q: pair.q - (i128::from(rep.k) + i128::from(rep.r) * i128::from(pair.c)),
        c: rep.cin,
    }
}

/// The pair with more time.
fn later(x: Pair, y: Pair) -> Pair
    ensures { ((result ≡ x) × (y.q ≤ℤ x.q)) ⊎ ((result ≡ y) × (x.q ≤ℤ y.q)) }
{
    if x.q < y.q { y } else { x }
}

/// What is found with one pair more.
fn with_pair(rep: &Rep, found: Option<Pair>, pair: &Pair) -> Option<Pair>
    requires rep { IsRepWithin rep.now }
    requires limits { IsModest pair.now }
    ensures { (seen : List PairSpec) → IsGreatestOf rep.now seen found
        → IsGreatestOf rep.now (seen ++ pair.now ∷ []) result }
{
    if !is_within(rep.limit, pair.c) {
        return found;
    }
    let made = above_cell(rep, pair);
    match found {
        Some(best) => Some(later(best, made)),
        None => Some(made),
    }
}

/// The greatest pair that a repeater makes of those of a list that are within its limit. None where no pair is.
pub fn greatest(rep: &Rep, pairs: &[Pair]) -> Option<Pair>
    requires rep { IsRepWithin rep.now }
    requires limits { All IsModest pairs.now }
    ensures { IsGreatestOf rep.now pairs.now result }
{
    let mut found = None;
    'pairs: for pair in pairs {
        found = with_pair(rep, found, pair);
    }
    found
}
