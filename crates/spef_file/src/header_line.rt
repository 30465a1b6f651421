//! The lines of a header.

ghost use Rattle.std.specs.Prelude.{◌≡◌, ◌<◌, ◌≤◌, IfOk, IfSome};
ghost use Rattle.vg_scan.specs.Spans.{words_at};
ghost use Rattle.spef_file.specs.Words.{first_word};
ghost use Rattle.spef_file.specs.Headers.{is_header_word, header_line, divider_line, delimiter_line, bus_line, with_chars, with_c_places, with_r_places, value_line, is_idle, IsSmall};

use crate::fault::SpefKind;
use crate::header_chars::{bus_bytes, lone, with_bus, with_delimiter, with_divider};
use crate::heading::Heading;
use crate::keyword::same;
use crate::units::unit_places;
use vg_scan::{Chars, Span, text_at};

/// The first of some words, or no text.
pub(crate) fn first_word<'a>(bytes: &'a [u8], words: &[Span]) -> &'a [u8]
    ensures { result.now ≡ first_word (words_at bytes.now words.now) }
{
    match words {
        [] => b"",
        [word, ..] => text_at(bytes, *word),
    }
}

/// Whether a word is the first one of the header's line at a place, from 0.
#[tactic(auto, unfolding(crate::specs::Headers::is_header_word))]
fn is_header_word(place: usize, word: &[u8]) -> bool
    requires { place < 14 }
    ensures { result ≡ is_header_word place word.now }
{
    match place {
        0 => same(word, b"*SPEF"),
        1 => same(word, b"*DESIGN"),
        2 => same(word, b"*DATE"),
        3 => same(word, b"*VENDOR"),
        4 => same(word, b"*PROGRAM"),
        5 => same(word, b"*VERSION"),
        6 => same(word, b"*DESIGN_FLOW"),
        7 => same(word, b"*DIVIDER"),
        8 => same(word, b"*DELIMITER"),
        9 => same(word, b"*BUS_DELIMITER"),
        10 => same(word, b"*T_UNIT"),
        11 => same(word, b"*C_UNIT"),
        12 => same(word, b"*R_UNIT"),
        _ => same(word, b"*L_UNIT"),
    }
}

fn with_chars(heading: &Heading, chars: Option<Chars>) -> Result<Heading, SpefKind>
    requires small { IsSmall heading.now }
    ensures heading { result ≡ with_chars heading.now chars }
    ensures small { IfOk result IsSmall }
{
    let Some(chars) = chars else {
        return Err(SpefKind::Header);
    };
    Ok(Heading {
        chars,
        c_places: heading.c_places,
        r_places: heading.r_places,
    })
}

fn with_c_places(heading: &Heading, places: Option<u8>) -> Result<Heading, SpefKind>
    requires small { IsSmall heading.now }
    requires places { IfSome places (λ places. places ≤ 9) }
    ensures heading { result ≡ with_c_places heading.now places }
    ensures small { IfOk result IsSmall }
{
    let Some(c_places) = places else {
        return Err(SpefKind::Unit);
    };
    Ok(Heading {
        chars: heading.chars,
        c_places,
        r_places: heading.r_places,
    })
}

fn with_r_places(heading: &Heading, places: Option<u8>) -> Result<Heading, SpefKind>
    requires small { IsSmall heading.now }
    requires places { IfSome places (λ places. places ≤ 9) }
    ensures heading { result ≡ with_r_places heading.now places }
    ensures small { IfOk result IsSmall }
{
    let Some(r_places) = places else {
        return Err(SpefKind::Unit);
    };
    Ok(Heading {
        chars: heading.chars,
        c_places: heading.c_places,
        r_places,
    })
}

fn divider_line(heading: &Heading, bytes: &[u8], words: &[Span]) -> Result<Heading, SpefKind>
    requires small { IsSmall heading.now }
    ensures heading { result ≡ divider_line heading.now (words_at bytes.now words.now) }
    ensures small { IfOk result IsSmall }
{
    let [_, word] = words else {
        return Err(SpefKind::Header);
    };
    match lone(text_at(bytes, *word)) {
        None => Err(SpefKind::Header),
        Some(byte) => with_chars(heading, with_divider(&heading.chars, byte)),
    }
}

fn delimiter_line(heading: &Heading, bytes: &[u8], words: &[Span]) -> Result<Heading, SpefKind>
    requires small { IsSmall heading.now }
    ensures heading { result ≡ delimiter_line heading.now (words_at bytes.now words.now) }
    ensures small { IfOk result IsSmall }
{
    let [_, word] = words else {
        return Err(SpefKind::Header);
    };
    match lone(text_at(bytes, *word)) {
        None => Err(SpefKind::Header),
        Some(byte) => with_chars(heading, with_delimiter(&heading.chars, byte)),
    }
}

fn bus_line(heading: &Heading, bytes: &[u8], words: &[Span]) -> Result<Heading, SpefKind>
    requires small { IsSmall heading.now }
    ensures heading { result ≡ bus_line heading.now (words_at bytes.now words.now) }
    ensures small { IfOk result IsSmall }
{
    match bus_bytes(bytes, words) {
        None => Err(SpefKind::Header),
        Some(pair) => with_chars(heading, with_bus(&heading.chars, pair)),
    }
}

fn value_line(
    place: usize,
    heading: &Heading,
    bytes: &[u8],
    words: &[Span],
) -> Result<Heading, SpefKind>
    requires small { IsSmall heading.now }
    ensures heading { result ≡ value_line place heading.now (words_at bytes.now words.now) }
    ensures small { IfOk result IsSmall }
{
    match place {
        7 => divider_line(heading, bytes, words),
        8 => delimiter_line(heading, bytes, words),
        9 => bus_line(heading, bytes, words),
        11 => with_c_places(heading, unit_places(bytes, words, b"FF", b"PF")),
        12 => with_r_places(heading, unit_places(bytes, words, b"OHM", b"KOHM")),
        _ => Ok(*heading),
    }
}

/// What the line of these words, the header's at this place from 0, makes of what the header has said.
///
/// Answers `Header` where the line is another or gives no bytes that may be taken, and `Unit` where it gives no unit.
#[tactic(auto, unfolding(crate::specs::Headers::header_line))]
pub(crate) fn header_line(
    place: usize,
    heading: &Heading,
    bytes: &[u8],
    words: &[Span],
) -> Result<Heading, SpefKind>
    requires place { place < 14 }
    requires small { IsSmall heading.now }
    ensures heading { result ≡ header_line place heading.now (words_at bytes.now words.now) }
    ensures small { IfOk result IsSmall }
{
    if is_header_word(place, first_word(bytes, words)) && words.len() > 1 {
        value_line(place, heading, bytes, words)
    } else {
        Err(SpefKind::Header)
    }
}

/// Whether a line says nothing of the header after so many of its lines: it has no words, or goes on with a text.
pub(crate) fn is_idle(place: usize, bytes: &[u8], words: &[Span]) -> bool
    ensures { result ≡ is_idle place (words_at bytes.now words.now) }
{
    let word = first_word(bytes, words);
    words.is_empty() || (place > 0 && !word.is_empty() && word[0] == b'"')
}
