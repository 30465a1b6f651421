//! The names of lists, of bags and of places.

/// The link that leads nowhere.
pub(crate) const NONE: u32 = 4_294_967_295;

/// The first and the last slot of a list or a bag. The first of an empty one is `NONE`, and its last is anything.
#[derive(Clone, Copy)]
pub(crate) struct Ends {
    pub(crate) first: u32,
    pub(crate) last: u32,
}

pub(crate) const EMPTY: Ends = Ends {
    first: NONE,
    last: NONE,
};

/// A list of candidates by rising q and c. It names slots of its pool, and is used up by the calls that take it. It may
/// stand in a vector, so it may be let go like any value; its slots are then lost to the pool, which contracts on
/// `spare` exclude.
#[derive(Drop)]
pub struct List {
    pub(crate) ends: Ends,
}

/// The tags of candidates that are in no list any more, in any order.
pub struct Bag {
    pub(crate) ends: Ends,
}

/// A place in a list.
#[derive(Clone, Copy)]
pub struct Cand {
    pub(crate) slot: u32,
}
