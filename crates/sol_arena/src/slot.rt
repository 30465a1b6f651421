//! Slots, in which solutions stand.

ghost use Rattle.std.specs.Prelude.{◌≡◌, count_by};
ghost use Rattle.sol_arena.specs.Slots.{is_solution};

/// The number that no slot has: that of the empty solution, and the end of each chain of slots.
pub(crate) const NONE: u64 = u64::MAX;

/// What stands in a slot. Solutions and slots are named by their numbers.
#[derive(Clone, Copy)]
pub(crate) enum Made {
    /// No solution; the next free slot.
    Free { next: u64 },
    /// No solution any more, but a use of `to` that is yet to be given up; the next slot that owes one.
    Owed { to: u64, next: u64 },
    /// A solution with one cell more than another.
    Cell { node: u32, rep: u32, below: u64 },
    /// The solution with the cells of two others.
    Join { a: u64, b: u64 },
}

/// A place for a solution, with the number of its uses.
#[derive(Clone, Copy)]
pub(crate) struct Slot {
    pub made: Made,
    pub uses: u64,
}

impl Slot {
    /// Whether a solution stands here.
    pub fn is_solution(&self) -> bool
        ensures { result ≡ is_solution self.now.made }
    {
        matches!(self.made, Made::Cell { .. } | Made::Join { .. })
    }
}

/// In how many of these slots a solution stands.
pub(crate) fn count_solutions(slots: &[Slot]) -> usize
    ensures { result ≡ count_by (λ slot. is_solution slot.made) slots.now }
{
    slots.iter().filter(|slot| slot.is_solution()).count()
}
