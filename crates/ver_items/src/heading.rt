//! What a declaration says of its identifiers.

ghost use Rattle.std.specs.Prelude.{◌≡◌, filter, map};
ghost use Rattle.std.specs.Str.{bytes_eq};
ghost use Rattle.ver_syntax.specs.Grammar.{is_digits};
ghost use Rattle.ver_items.specs.Declarations.{direction_named, heading_of, is_supply, numbers_in, range_of};

use crate::section::Section;
use crate::stretch::Stretch;
use crate::token::{bytes_at, is_digits, number_at};
use ver_module::{PortDir, Range};

/// What a declaration says of each of its identifiers.
#[derive(Clone, Copy, Debug, PartialEq, Eq, Drop)]
pub struct Heading {
    /// The direction, where it declares ports.
    pub direction: Option<PortDir>,
    /// Whether it declares nets of a fixed value: `supply0` or `supply1`.
    pub supply: bool,
    /// The range. `None`: it declares scalars.
    pub range: Option<Range>,
}

fn is_word(text: &[u8], word: &[u8]) -> bool
    ensures { result ≡ bytes_eq text.now word.now }
{
    text == word
}

fn direction_named(word: &[u8]) -> Option<PortDir>
    ensures { result ≡ direction_named word.now }
{
    if is_word(word, b"input") {
        return Some(PortDir::Input);
    }
    if is_word(word, b"output") {
        return Some(PortDir::Output);
    }
    if is_word(word, b"inout") {
        return Some(PortDir::Inout);
    }
    None
}

fn is_supply(word: &[u8]) -> bool
    ensures { result ≡ is_supply word.now }
{
    is_word(word, b"supply0") || is_word(word, b"supply1")
}

/// The range whose bounds are the numbers of a declaration.
fn range_in<T: Stretch>(text: &[u8], declaration: &Section<T>) -> Option<Range>
    ensures { result ≡ range_of (numbers_in text.now declaration.now) }
{
    let mut first = None;
    let mut left = declaration.body.again();
    'row: while let Some(row) = left.next() {
        if is_digits(row.kind) {
            let number = number_at(text, row);
            match first {
                None => first = Some(number),
                Some(left) => {
                    return Some(Range {
                        left,
                        right: number,
                    });
                }
            }
        }
    }
    None
}

impl Heading {
    /// What a declaration says.
    pub fn of<T: Stretch>(text: &[u8], declaration: &Section<T>) -> Heading
        ensures { result ≡ heading_of text.now declaration.now }
    {
        let word = bytes_at(text, declaration.head);
        Heading {
            direction: direction_named(word),
            supply: is_supply(word),
            range: range_in(text, declaration),
        }
    }
}
