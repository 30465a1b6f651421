//! The bits of vectors, and what expressions select of them.

ghost use Rattle.std.specs.Prelude.{◌≡◌};
ghost use Rattle.ver_items.specs.Bits.{first_number, fits, is_single, select_before, select_in};

use crate::stretch::Stretch;
use crate::token::{is, number_at};
use ver_module::Range;
use ver_text::Kind;

/// What an expression selects of an identifier.
#[derive(Clone, Copy, Debug, PartialEq, Eq, Drop)]
pub enum Select {
    /// All of it.
    Whole,
    /// One bit, by its number alone.
    Bit(u32),
    /// The bits from one bound to the other.
    Part(Range),
}

fn first_number<T: Stretch>(text: &[u8], rows: &T) -> u32
    ensures { result ≡ first_number text.now (T.tokens rows.now) }
{
    match rows.again().next() {
        None => 0,
        Some(row) => number_at(text, row),
    }
}

/// What is selected by what stands after a `[`.
fn select_in<T: Stretch>(text: &[u8], rows: &T) -> Select
    ensures { result ≡ select_in text.now (T.tokens rows.now) }
{
    let mut left = rows.again();
    let Some(bit) = left.next() else {
        return Select::Whole;
    };
    let Some(next) = left.next() else {
        return Select::Whole;
    };
    let number = number_at(text, bit);
    if is(Kind::Colon, next.kind) {
        Select::Part(Range {
            left: number,
            right: first_number(text, &left),
        })
    } else {
        Select::Bit(number)
    }
}

/// What is selected of an identifier before these tokens.
pub fn select_before<T: Stretch>(text: &[u8], rows: &T) -> Select
    ensures { result ≡ select_before text.now (T.tokens rows.now) }
{
    let mut left = rows.again();
    match left.next() {
        Some(row) if is(Kind::OpenSquare, row.kind) => select_in(text, &left),
        _ => Select::Whole,
    }
}

impl Select {
    /// Whether it selects one net of an identifier with this range: a scalar, or a bit by its number alone.
    pub fn is_single(self, range: Option<Range>) -> bool
        ensures { result ≡ is_single self range }
    {
        match (self, range) {
            (Select::Whole, None) | (Select::Bit(_), _) => true,
            _ => false,
        }
    }

    /// Whether it lies in the range of its identifier.
    pub fn fits(self, range: Option<Range>) -> bool
        ensures { result ≡ fits self range }
    {
        match (self, range) {
            (Select::Whole, _) => true,
            (_, None) => false,
            (Select::Bit(bit), Some(range)) => range.has(bit),
            (Select::Part(part), Some(range)) => range.has(part.left) && range.has(part.right),
        }
    }
}
