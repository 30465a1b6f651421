//! Which calls of an object in memory fail, and what is known of those that did.
ghost use Rattle.std.specs.Prelude.{◌≡◌, ◌+◌, ◌-◌, ◌^◌, ◌≤◌, ◌↔◌, min, None, Contains, IfOk, IsTrue};

use std::alloc::{AllocError, Global};

/// The numbers of the calls that fail, and the count of all calls so far. It stands still at `u64::MAX`.
#[derive(Drop)]
pub struct Calls {
    fails: Vec<u64>,
    made: u64,
}

impl Calls {
    /// No call was made yet, and the calls of these numbers fail.
    pub fn new(alloc: Global, fails: &[u64]) -> Result<Calls, AllocError>
        ensures fails { IfOk result (λ calls. calls.fails.items ≡ fails.now) }
        ensures made { IfOk result (λ calls. calls.made ≡ 0) }
    {
        Ok(Calls {
            fails: fails.to_vec(alloc)?,
            made: 0,
        })
    }

    /// Counts a call, and says whether it fails.
    pub fn count_call(&mut self) -> bool
        ensures fails { IsTrue result ↔ Contains self.old.fails.items self.old.made }
        ensures made { self.new.made ≡ min (self.old.made + 1) (2 ^ 64 - 1) }
        ensures same_fails { self.new.fails.items ≡ self.old.fails.items }
    {
        let fails = self.fails.contains(&self.made);
        self.made = self.made.saturating_add(1);
        fails
    }
}

/// How many calls failed so far, and the number of the file at which the last one did. The count stands still at
/// `u64::MAX`.
#[derive(Drop)]
pub struct Faults {
    count: u64,
    blamed: Option<usize>,
}

impl Faults {
    /// No call failed yet.
    pub fn new() -> Faults
        ensures count { result.count ≡ 0 }
        ensures blamed { result.blamed ≡ None }
    {
        Faults {
            count: 0,
            blamed: None,
        }
    }

    /// Counts a fault at the file of this number.
    pub fn add(&mut self, number: Option<usize>)
        ensures count { self.new.count ≡ min (self.old.count + 1) (2 ^ 64 - 1) }
        ensures later { self.old.count ≤ self.new.count }
        ensures blamed { self.new.blamed ≡ number }
    {
        self.count = self.count.saturating_add(1);
        self.blamed = number;
    }
}
