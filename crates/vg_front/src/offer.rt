//! What candidates come to, and what new ones are to be made of.

ghost use Rattle.std.specs.Prelude.{◌↔◌, IsTrue};
ghost use Rattle.elmore.specs.Legal.{IsWithin};
ghost use Rattle.cand_pairs.specs.Priced.{Beats};
ghost use Rattle.vg_front.specs.Offers.{priced};

use sol_arena::Sol;
use std::cmp::Ordering;

/// What a candidate comes to: the latest time at which the signal may reach the node (zs), the cost of its cells
/// (thousandths), and the load that is seen of it from above (aF).
#[derive(Clone, Copy)]
pub(crate) struct Offer {
    pub q: i128,
    pub cost: u64,
    pub c: u64,
}

/// A candidate, and its solution, of which its list holds a use.
#[derive(Clone, Copy)]
pub(crate) struct Candidate {
    pub offer: Offer,
    pub sol: Sol,
}

/// What a new solution is to be made of: another one, with a cell more at a node, or two others.
#[derive(Clone, Copy)]
pub(crate) enum Origin {
    Cell { node: u32, rep: u32, below: Sol },
    Join { a: Sol, b: Sol },
}

/// A candidate that may be made.
#[derive(Clone, Copy)]
pub(crate) struct Proposal {
    pub offer: Offer,
    pub origin: Origin,
}

/// Whether a number is within a limit, if there is one.
pub(crate) fn is_within(limit: Option<u64>, n: u64) -> bool
    ensures { IsTrue result ↔ IsWithin limit n }
{
    match limit {
        Some(most) => n <= most,
        None => true,
    }
}

/// Whether the first costs no more, and has no less time and no more load.
pub(crate) fn beats(a: Offer, b: Offer) -> bool
    ensures { IsTrue result → Beats (priced a) (priced b) }
{
    a.cost <= b.cost && b.q <= a.q && a.c <= b.c
}

/// The order of candidates: by their cost, then by their load, and then by their time, the greater one first.
pub(crate) fn order(a: Offer, b: Offer) -> Ordering {
    a.cost.cmp(&b.cost).then(a.c.cmp(&b.c)).then(b.q.cmp(&a.q))
}

/// Whether the first comes before the second, or both come to the same.
pub(crate) fn comes_first(a: Offer, b: Offer) -> bool {
    order(a, b) != Ordering::Greater
}
