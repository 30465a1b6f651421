//! The bytes that a header gives a meaning.

ghost use Rattle.std.specs.Prelude.{◌≡◌};
ghost use Rattle.vg_scan.specs.Separators.{is_separator, is_bus_pair};
ghost use Rattle.vg_scan.specs.Spans.{words_at};
ghost use Rattle.spef_file.specs.HeaderChars.{with_divider, with_delimiter, with_bus, bus_bytes, lone, two, both};

use vg_scan::{Chars, Span, text_at};

fn is_separator(byte: u8) -> bool
    ensures { result ≡ is_separator byte }
{
    byte == b'/' || byte == b'.' || byte == b':' || byte == b'|'
}

fn is_bus_pair(left: u8, right: u8) -> bool
    ensures { result ≡ is_bus_pair left right }
{
    (left == b'[' && right == b']')
        || (left == b'{' && right == b'}')
        || (left == b'(' && right == b')')
        || (left == b'<' && right == b'>')
}

/// The same bytes with another divider, if the byte may be one.
pub(crate) fn with_divider(chars: &Chars, byte: u8) -> Option<Chars>
    ensures { result ≡ with_divider chars.now byte }
{
    if !is_separator(byte) {
        return None;
    }
    Some(Chars {
        divider: byte,
        delimiter: chars.delimiter,
        bus_left: chars.bus_left,
        bus_right: chars.bus_right,
    })
}

/// The same bytes with another delimiter, if the byte may be one.
pub(crate) fn with_delimiter(chars: &Chars, byte: u8) -> Option<Chars>
    ensures { result ≡ with_delimiter chars.now byte }
{
    if !is_separator(byte) {
        return None;
    }
    Some(Chars {
        divider: chars.divider,
        delimiter: byte,
        bus_left: chars.bus_left,
        bus_right: chars.bus_right,
    })
}

/// The same bytes with other bus delimiters, if the bytes may be a pair of them.
pub(crate) fn with_bus(chars: &Chars, pair: (u8, u8)) -> Option<Chars>
    ensures { result ≡ with_bus chars.now pair }
{
    let (bus_left, bus_right) = pair;
    if !is_bus_pair(bus_left, bus_right) {
        return None;
    }
    Some(Chars {
        divider: chars.divider,
        delimiter: chars.delimiter,
        bus_left,
        bus_right,
    })
}

/// The byte of a word of one byte.
pub(crate) fn lone(word: &[u8]) -> Option<u8>
    ensures { result ≡ lone word.now }
{
    let [byte] = word else {
        return None;
    };
    Some(*byte)
}

fn two(word: &[u8]) -> Option<(u8, u8)>
    ensures { result ≡ two word.now }
{
    let [left, right] = word else {
        return None;
    };
    Some((*left, *right))
}

fn both(left: Option<u8>, right: Option<u8>) -> Option<(u8, u8)>
    ensures { result ≡ both left right }
{
    match (left, right) {
        (Some(left), Some(right)) => Some((left, right)),
        _ => None,
    }
}

/// The pair of the further words of a line, with blanks between them or not.
pub(crate) fn bus_bytes(bytes: &[u8], words: &[Span]) -> Option<(u8, u8)>
    ensures { result ≡ bus_bytes (words_at bytes.now words.now) }
{
    match words {
        [_, word] => two(text_at(bytes, *word)),
        [_, left, right] => both(lone(text_at(bytes, *left)), lone(text_at(bytes, *right))),
        _ => None,
    }
}
