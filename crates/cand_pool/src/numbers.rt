//! The numbers of a candidate.

/// What a slot holds. The three lie side by side, so that a look at a slot anywhere in the pool waits for memory once.
#[derive(Clone, Copy)]
pub(crate) struct Numbers {
    pub(crate) q: i128,
    pub(crate) c: u64,
    pub(crate) tag: u64,
}

/// What a slot holds before a candidate is written there.
pub(crate) const BLANK: Numbers = Numbers { q: 0, c: 0, tag: 0 };
