//! Stretches of a text's tokens.

ghost use Rattle.std.specs.Prelude.{◌≡◌, ◌∷◌, ◌≤◌, [], List, drop, length, take, MatchOption};
ghost use Rattle.std.specs.List.{before_first};
ghost use Rattle.ver_syntax.specs.declared.row.Row.{Row as RowSpec};
ghost use Rattle.ver_items.specs.Begins.{begins};

use crate::begin::Begin;
use ver_syntax::Row;

/// Some tokens of a text, one after another. Contracts see the list of those that are left.
///
/// Those of most items are held, as a slice. Where an item has too many for that, they are cut from the text whenever
/// they are walked, as a `Cut`.
pub trait Stretch: Sized + Drop {
    ghost tokens: { Self → List RowSpec };

    /// The tokens that are left, to be walked beside these.
    fn again(&self) -> Self
        ensures { tokens result ≡ tokens self.now };

    /// How many tokens are left.
    fn len(&self) -> usize
        ensures { result ≡ length (tokens self.now) };

    /// Takes the first of the tokens. `None`: none is left.
    fn next(&mut self) -> Option<Row>
        ensures { MatchOption result ((tokens self.old ≡ []) × (tokens self.new ≡ []))
            (λ row. tokens self.old ≡ row ∷ tokens self.new) };

    /// The first so many of the tokens.
    fn first(&self, count: usize) -> Self
        requires { count ≤ length (tokens self.now) }
        ensures { tokens result ≡ take count (tokens self.now) };

    /// Those of the tokens before the first that begins a section, and the others.
    fn split(&self, begin: Begin) -> (Self, Self)
        ensures before { tokens result.0 ≡ before_first (begins begin) (tokens self.now) }
        ensures rest { tokens result.1 ≡ drop (length (tokens result.0)) (tokens self.now) };
}

impl<'a> Stretch for &'a [Row] {
    ghost tokens = { λ rows. rows.now };

    #[inline(always)]
    fn again(&self) -> &'a [Row] {
        self
    }

    #[inline(always)]
    fn len(&self) -> usize {
        <[Row]>::len(self)
    }

    #[inline(always)]
    fn next(&mut self) -> Option<Row> {
        match self.split_first() {
            Some((row, left)) => {
                *self = left;
                Some(*row)
            }
            None => None,
        }
    }

    #[inline(always)]
    fn first(&self, count: usize) -> &'a [Row] {
        &self[..count]
    }

    #[inline(always)]
    fn split(&self, begin: Begin) -> (&'a [Row], &'a [Row]) {
        let end = begin.position(self).unwrap_or(<[Row]>::len(self));
        self.split_at(end)
    }
}
