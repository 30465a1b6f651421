//! One line: the heading, or a width.

ghost use Rattle.std.specs.Prelude.{◌≡◌};
ghost use Rattle.std.specs.Str.{bytes_eq};
ghost use Rattle.vg_scan.specs.Spans.{part_at, words_at};
ghost use Rattle.vg_width.specs.Lines.{is_heading, number_in, width_with, width_of};

use crate::fault::WidthKind;
use vg_num::read_whole;
use vg_scan::{Span, are_digits, text_at};
use wire_widths::Width;

fn is_word(bytes: &[u8], span: Span, word: &[u8]) -> bool
    ensures { result ≡ bytes_eq (part_at bytes.now span) word.now }
{
    text_at(bytes, span) == word
}

/// Whether the words are the heading.
pub(crate) fn is_heading(bytes: &[u8], words: &[Span]) -> bool
    ensures { result ≡ is_heading (words_at bytes.now words.now) }
{
    let [name, version] = words else {
        return false;
    };
    is_word(bytes, *name, b"vgwidth") && is_word(bytes, *version, b"1")
}

/// The number that a word of at most so many digits writes, where it is at most so much.
fn number_in(word: &[u8], digits: usize, most: u32) -> Option<u32>
    ensures { result ≡ number_in digits most word.now }
{
    if word.len() > digits || !are_digits(word) {
        return None;
    }
    let Ok(number) = read_whole(word) else {
        return None;
    };
    if number > i128::from(most) {
        return None;
    }
    Some(number as u32)
}

/// The width of these numbers.
fn width_with(num: Option<u32>, den: Option<u32>, add: Option<u32>) -> Result<Width, WidthKind>
    ensures { result ≡ width_with num den add }
{
    let (Some(num), Some(den), Some(add)) = (num, den, add) else {
        return Err(WidthKind::Number);
    };
    if num < 1 || num > den {
        return Err(WidthKind::Number);
    }
    Ok(Width { num, den, add })
}

/// The width that the words of a line state.
#[tactic(auto, unfolding(crate::specs::Lines::width_of))]
pub(crate) fn width_of(bytes: &[u8], words: &[Span]) -> Result<Width, WidthKind>
    ensures { result ≡ width_of (words_at bytes.now words.now) }
{
    let [name, num, den, add] = words else {
        return Err(WidthKind::Word);
    };
    if !is_word(bytes, *name, b"width") {
        return Err(WidthKind::Word);
    }
    let num = number_in(text_at(bytes, *num), 4, 1000);
    let den = number_in(text_at(bytes, *den), 4, 1000);
    let add = number_in(text_at(bytes, *add), 7, 1_000_000);
    width_with(num, den, add)
}
