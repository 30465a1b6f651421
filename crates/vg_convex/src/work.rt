//! Room to work in.

ghost use Rattle.std.specs.Prelude.{◌≡◌, ◌≤◌, ℕ, OnOk, [], length, None};
ghost use Rattle.elmore.specs.Allowances.{Allows};
ghost use Rattle.vg_convex.specs.Answers.{found_at};

use elmore::{Allowed, Pair};
use std::alloc::Global;
use vg_num::Memory;

/// A candidate's numbers as the hull needs them: the time, the load and the tag that a pool tells of it.
#[derive(Clone, Copy)]
pub(crate) struct Point {
    pub(crate) q: i128,
    pub(crate) c: u64,
    pub(crate) tag: u64,
}

/// The greatest time that a repeater makes of a list's candidates, and the tag of a candidate of which it makes that.
#[derive(Clone, Copy)]
pub(crate) struct Found {
    pub(crate) time: i128,
    pub(crate) tag: u64,
}

/// A pair that a repeater makes, the repeater's number, and the tag of the candidate that it drives. Where the width of
/// a wire is chosen, it is that width's number.
#[derive(Clone, Copy)]
pub struct Made {
    pub pair: Pair,
    pub rep: u32,
    pub tag: u64,
}

/// A stack of points, and a row of what was found for each repeater. One serves all nodes; what stands in it before a
/// call does not matter.
#[derive(Drop)]
pub struct Work {
    pub(crate) stack: Vec<Point>,
    pub(crate) found: Vec<Option<Found>>,
}

/// The undominated ones of some results. One serves all nodes; what stands in it before a call does not matter.
#[derive(Drop)]
pub struct Kept {
    pub(crate) results: Vec<Made>,
}

impl Kept {
    /// Room that is empty at first, takes no memory yet, and grows as it is used.
    pub fn new(alloc: Global) -> Kept {
        Kept {
            results: Vec::new(alloc),
        }
    }
}

impl Work {
    /// Room that is empty at first, takes no memory yet, and grows as it is used.
    pub fn new(alloc: Global) -> Work {
        Work {
            stack: Vec::new(alloc),
            found: Vec::new(alloc),
        }
    }

    /// Takes all results away. Their places stay.
    pub(crate) fn forget(&mut self)
        ensures stack { self.new.stack.items ≡ self.old.stack.items }
        ensures rows { length self.new.found.items ≡ length self.old.found.items }
        ensures found { (b : ℕ) → found_at self.new.found.items b ≡ None }
    {
        'results: for at in 0..self.found.len() {
            self.found[at] = None;
        }
    }

    /// Empties the stack, and makes a row with places for so many results, in which nothing is found for a repeater
    /// that is not allowed.
    pub(crate) fn clear(&mut self, results: usize, allowed: &Allowed) -> Result<(), Memory>
        ensures stack { OnOk result (self.new.stack.items ≡ []) }
        ensures rows { OnOk result (results ≤ length self.new.found.items) }
        ensures none { OnOk result ((b : ℕ) → (Allows allowed.now b → ⊥) → found_at self.new.found.items b ≡ None) }
    {
        self.stack.clear();
        // Where all are allowed, each place is written again.
        if let Allowed::Only(_) = allowed {
            self.forget();
        }
        'results: for _ in self.found.len()..results {
            self.found.push(None)?;
        }
        Ok(())
    }
}
