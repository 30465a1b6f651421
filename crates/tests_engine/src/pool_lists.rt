//! Lists made of rows, and what the calls make of them.

ghost use Rattle.std.specs.Prelude.{◌≡◌, suc, ◌+◌, ◌*◌, ◌^◌, ◌≤◌, ◌<◌, [], ◌∷◌, length};
ghost use Rattle.cand_pool.specs.Laws.{RisesInTime};
ghost use Rattle.cand_pool.specs.Pools.{spare, items_of, IsLive, IsLiveBag, bag_of, KeepsOthers, name, bag_name};
ghost use Rattle.tests_engine.specs.Rows.{IsMade, AreRising};

use crate::pool_rows::{Numbers, Row};
use cand_pool::{Bag, List, Pool, Steps};
use std::sync::ledger::Ledger;

/// The tags of a bag, one bit each, and how many there are.
#[derive(Clone, Copy, PartialEq, Eq)]
pub struct Tags {
    mask: u64,
    count: usize,
}

impl Tags {
    const NONE: Tags = Tags { mask: 0, count: 0 };

    /// With one more tag.
    fn with(self, tag: u64) -> Tags {
        Tags {
            mask: self.mask | 1 << (tag & 63),
            count: self.count.wrapping_add(1),
        }
    }

    /// The tags of rows.
    pub fn of(rows: &[Row]) -> Tags {
        let mut tags = Tags::NONE;
        for row in rows {
            tags = tags.with(u64::from(row.tag));
        }
        tags
    }

    /// The tags of both, which have none in common.
    pub fn and(self, other: Tags) -> Option<Tags> {
        if self.mask & other.mask != 0 {
            return None;
        }
        Some(Tags {
            mask: self.mask | other.mask,
            count: self.count.wrapping_add(other.count),
        })
    }
}

/// A list of these rows.
pub fn make(pool: &mut Pool, rows: &[Row]) -> List
    requires { length rows.now ≤ spare pool.old }
    ensures made { IsMade pool.new result (length rows.now) }
    ensures rises { AreRising (λ row. row.q) rows.now → RisesInTime (items_of pool.new result) }
    ensures others { KeepsOthers pool.old [] pool.new (name result ∷ []) }
    ensures spare { spare pool.old ≡ spare pool.new + length rows.now }
{
    let mut list = pool.none();
    'rows: for row in rows {
        let numbers = row.numbers();
        pool.push(&mut list, numbers.q, numbers.c, numbers.tag);
    }
    list
}

/// Whether a list has the numbers of these rows.
pub fn has_rows<L: Ledger>(pool: &Pool, list: &List, rows: &[Row], steps: &mut Steps<L>) -> bool
    requires { IsLive pool.now list.now }
{
    let mut left = rows;
    let mut place = pool.first(list);
    'places: while let Some(at) = place {
        let [row, rest @ ..] = left else {
            return false;
        };
        let (q, c, tag) = pool.tell(at, steps);
        if row.numbers() != (Numbers { q, c, tag }) {
            return false;
        }
        left = rest;
        place = pool.next(at);
    }
    left.is_empty()
}

/// Takes all tags out of a bag.
pub fn take_all(pool: &mut Pool, mut bag: Bag) -> Tags
    requires { IsLiveBag pool.old bag }
    ensures others { KeepsOthers pool.old (bag_name bag ∷ []) pool.new [] }
    ensures spare { spare pool.new ≡ spare pool.old + length (bag_of pool.old bag) }
{
    let mut tags = Tags::NONE;
    'tags: while let Some(tag) = pool.take(&mut bag) {
        tags = tags.with(tag);
    }
    pool.close(bag);
    tags
}
