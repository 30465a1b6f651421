//! Counted steps.

ghost use Rattle.std.specs.Prelude.{◌≡◌, ℕ, suc, ◌<◌};

use std::marker::Model;
use std::sync::ledger::{Blank, Book, Ledger, Share};

/// How often the numbers of a candidate were looked at, or those of two that had been told were compared. It takes no
/// bytes.
#[derive(Drop)]
pub struct Steps<L: Ledger> {
    book: Book<L>,
    share: Share<L>,
}

impl<L: Ledger> Model for Steps<L> {
    ghost Value = { ℕ };

    ghost view = { λ steps. steps.book.total };

    ghost invariant = { λ steps. 0 < steps.share.parts };
}

impl<L: Ledger> Steps<L> {
    /// A count that begins at zero, in a new ledger.
    pub fn new(blank: Blank) -> Self
        requires name { blank.name ≡ L.name }
        requires parts { blank.parts ≡ L.parts }
        requires some { 0 < L.parts }
        ensures { result ≡ 0 }
    {
        let (book, share) = blank.open::<L>();
        Steps { book, share }
    }

    /// Counts one more. A pool counts each look at a candidate; who compares candidates that it was told counts this.
    pub fn tick(&mut self)
        ensures { self.new ≡ suc self.old }
    {
        self.book.add(&mut self.share, 1);
    }
}
