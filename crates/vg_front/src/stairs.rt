//! Which candidates are beaten by those that were seen before.

ghost use Rattle.std.specs.Prelude.{◌≡◌, ◌+◌, ◌<◌, ◌≤◌, List, [], ◌∷◌, ◌++◌, length, IsTrue, MatchBool};
ghost use Rattle.cand_pairs.specs.Priced.{Priced};
ghost use Rattle.vg_front.specs.Offers.{priced, IsBeaten};
ghost use Rattle.vg_front.specs.Seen.{stairs_of, stair_of, AreReached, AreOf, AreSomeOf, IsMoved, IsRefused};

use crate::offer::Offer;
use std::alloc::Global;

/// A time (zs) that is reached with a load (aF).
#[derive(Clone, Copy)]
struct Stair {
    q: i128,
    c: u64,
}

/// The times that candidates reach with each load, at no more than some cost (thousandths): they rise with the load.
/// They are parted at the load of the last candidate, so that what is put in or dropped there stands at an end.
#[derive(Drop)]
pub(crate) struct Stairs {
    /// Those of at most this load, by rising load.
    passed: Vec<Stair>,
    /// Those of more load, by falling load.
    ahead: Vec<Stair>,
    cost: u64,
}

/// Puts a stair at the end of others. Where there is no room for it, it is left out.
fn keep(stairs: &mut Vec<Stair>, stair: Stair)
    ensures { AreOf stairs.old.items stair stairs.new.items }
{
    let _ = stairs.push(stair);
}

/// Moves the last stair of a list to the end of another one.
fn move_last(from: &mut Vec<Stair>, to: &mut Vec<Stair>)
    requires { 0 < length from.old.items }
    ensures fewer { length from.new.items + 1 ≡ length from.old.items }
    ensures moved { IsMoved from.old.items to.old.items from.new.items to.new.items }
{
    let Some(stair) = from.pop() else {
        unreachable!()
    };
    keep(to, stair);
}

impl Stairs {
    /// No stairs yet. It takes no memory.
    pub fn new(alloc: Global) -> Stairs
        ensures { stairs_of result ≡ [] }
    {
        Stairs {
            passed: Vec::new(alloc),
            ahead: Vec::new(alloc),
            cost: 0,
        }
    }

    /// Begins anew.
    pub fn clear(&mut self)
        ensures { stairs_of self.new ≡ [] }
    {
        self.passed.clear();
        self.ahead.clear();
        self.cost = 0;
    }

    /// Goes on to a cost; where it is less than that of the stairs, they begin anew.
    fn reach(&mut self, cost: u64)
        ensures reached { (zs : List Priced) → AreReached self.old zs → AreReached self.new zs }
        ensures cost { self.new.cost ≡ cost }
    {
        if cost < self.cost {
            self.clear();
        }
        self.cost = cost;
    }

    /// Whether the last stair that was passed has more load than this.
    fn is_beyond(&self, c: u64) -> bool
        ensures { IsTrue result → 0 < length self.now.passed.items }
    {
        let len = self.passed.len();
        len > 0 && self.passed[len - 1].c > c
    }

    /// Whether the next stair ahead has at most this load.
    fn is_past(&self, c: u64) -> bool
        ensures { IsTrue result → 0 < length self.now.ahead.items }
    {
        let len = self.ahead.len();
        len > 0 && self.ahead[len - 1].c <= c
    }

    /// Goes back to a load, past the stairs that have more.
    fn go_back(&mut self, c: u64)
        ensures { AreSomeOf self.old self.new }
    {
        'stairs: while self.is_beyond(c) {
            move_last(&mut self.passed, &mut self.ahead);
        }
    }

    /// Goes on to a load, past the stairs that have no more.
    fn pass(&mut self, c: u64)
        ensures { AreSomeOf self.old self.new }
    {
        'stairs: while self.is_past(c) {
            move_last(&mut self.ahead, &mut self.passed);
        }
    }

    /// Goes to a load.
    fn go_to(&mut self, c: u64)
        ensures { AreSomeOf self.old self.new }
    {
        self.go_back(c);
        self.pass(c);
    }

    /// Whether the last stair that was passed has no more load than this offer, and no less time.
    fn refuses(&self, offer: Offer) -> bool
        ensures { IsTrue result → IsRefused (stairs_of self.now) offer }
    {
        let len = self.passed.len();
        if len == 0 {
            return false;
        }
        let last = self.passed[len - 1];
        last.c <= offer.c && offer.q <= last.q
    }

    /// Drops the last stair that was passed, if it has this load.
    fn drop_equal(&mut self, c: u64)
        ensures { AreSomeOf self.old self.new }
    {
        let len = self.passed.len();
        if len > 0 && self.passed[len - 1].c == c {
            self.passed.truncate(len - 1);
        }
    }

    /// Whether the next stair ahead has at most this time.
    fn is_under(&self, q: i128) -> bool
        ensures { IsTrue result → 0 < length self.now.ahead.items }
    {
        let len = self.ahead.len();
        len > 0 && self.ahead[len - 1].q <= q
    }

    /// Drops the next stairs ahead that have at most this time.
    fn skip(&mut self, q: i128)
        ensures { AreSomeOf self.old self.new }
    {
        'stairs: while self.is_under(q) {
            self.ahead.truncate(self.ahead.len() - 1);
        }
    }

    /// Puts the stair of an offer where the stairs are parted, in place of those that have no less load and no more
    /// time.
    fn put(&mut self, offer: Offer)
        ensures among { AreOf (stairs_of self.old) (stair_of offer) (stairs_of self.new) }
        ensures cost { self.new.cost ≡ self.old.cost }
    {
        self.drop_equal(offer.c);
        self.skip(offer.q);
        let stair = Stair {
            q: offer.q,
            c: offer.c,
        };
        keep(&mut self.passed, stair);
    }

    /// Whether a candidate is beaten by one that was seen before, as far as the stairs tell. It is not seen itself.
    pub fn beats(&mut self, offer: Offer) -> bool
        ensures told { (zs : List Priced) → AreReached self.old zs
            → (IsTrue result → IsBeaten zs (priced offer)) × AreReached self.new zs }
        ensures cost { self.new.cost ≡ self.old.cost }
    {
        self.go_to(offer.c);
        self.cost <= offer.cost && self.refuses(offer)
    }

    /// Whether a candidate is beaten by none that was seen before, as far as the stairs tell; then it is seen too.
    /// Where the candidates come by rising cost, and by rising load among those of one cost, nothing that was seen is
    /// forgotten.
    pub fn admits(&mut self, offer: Offer) -> bool
        ensures { (zs : List Priced) → AreReached self.old zs
            → MatchBool result (AreReached self.new (zs ++ priced offer ∷ []))
            (IsBeaten zs (priced offer) × AreReached self.new zs) }
    {
        self.reach(offer.cost);
        if self.beats(offer) {
            return false;
        }
        self.put(offer);
        true
    }
}
