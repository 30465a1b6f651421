//! Heads of parts, and notes.

ghost use Rattle.std.specs.Prelude.{◌≡◌, ◌≤◌, ◌∷◌, false, length, drop, None};
ghost use Rattle.std.specs.List.{position, position_or_len};
ghost use Rattle.vg_scan.specs.Lines.{is_blank, is_ink};
ghost use Rattle.spef_net.specs.Lines.{part_named, head_of, is_solid, after_word, without_end, trimmed, note_after};

use crate::part::Part;
use vg_scan::{Words, text_from};

/// The part whose head is this word.
fn part_named(word: &[u8]) -> Option<Part>
    ensures { result ≡ part_named word.now }
{
    if word == b"*CONN".as_slice() {
        Some(Part::Conns)
    } else if word == b"*CAP".as_slice() {
        Some(Part::Caps)
    } else if word == b"*RES".as_slice() {
        Some(Part::Ress)
    } else if word == b"*INDUC".as_slice() {
        Some(Part::Inducs)
    } else {
        None
    }
}

/// Whether a word begins with a `*`, as the heads of parts do.
fn may_be_head(word: &[u8]) -> bool
    ensures { result ≡ false → part_named word.now ≡ None }
{
    !word.is_empty() && word[0] == b'*'
}

/// The part that a line opens, by its first word and the others.
pub(crate) fn head_of(first: &[u8], others: &Words) -> Option<Part>
    ensures { result ≡ head_of (first.now ∷ others.now) }
{
    if !may_be_head(first) {
        return None;
    }
    let part = part_named(first)?;
    if others.is_empty() { Some(part) } else { None }
}

fn first_ink(text: &[u8]) -> Option<usize>
    ensures { result ≡ position is_ink text.now }
{
    text.iter()
        .position(|byte| !(*byte == b' ' || *byte == b'\t'))
}

fn ink_at(text: &[u8]) -> usize
    ensures place { result ≡ position_or_len is_ink text.now }
    ensures within { result ≤ length text.now }
{
    match first_ink(text) {
        None => text.len(),
        Some(at) => at,
    }
}

fn first_blank(text: &[u8]) -> Option<usize>
    ensures { result ≡ position is_blank text.now }
{
    text.iter().position(|byte| *byte == b' ' || *byte == b'\t')
}

fn blank_at(text: &[u8]) -> usize
    ensures place { result ≡ position_or_len is_blank text.now }
    ensures within { result ≤ length text.now }
{
    match first_blank(text) {
        None => text.len(),
        Some(at) => at,
    }
}

fn first_solid(text: &[u8]) -> Option<usize>
    ensures { result ≡ position is_solid text.now }
{
    text.iter().position(|byte| !(*byte == b' ' || *byte == b'\t' || *byte == b'\r'))
}

fn solid_at(text: &[u8]) -> usize
    ensures place { result ≡ position_or_len is_solid text.now }
    ensures within { result ≤ length text.now }
{
    match first_solid(text) {
        None => text.len(),
        Some(at) => at,
    }
}

/// What stands after a text's first word.
#[tactic(auto, unfolding(crate::specs::Lines::after_word))]
fn after_word(text: &[u8]) -> &[u8]
    ensures { result.now ≡ after_word text.now }
{
    let rest = text_from(text, ink_at(text));
    text_from(rest, blank_at(rest))
}

/// The text without the spaces at its end.
fn without_end(text: &[u8]) -> &[u8]
    ensures { result.now ≡ without_end text.now }
{
    let mut end = text.len();
    'back: while end > 0
        && (text[end - 1] == b' ' || text[end - 1] == b'\t' || text[end - 1] == b'\r')
    {
        end -= 1;
    }
    &text[..end]
}

/// The text without the spaces at its ends.
#[tactic(auto, unfolding(crate::specs::Lines::trimmed))]
fn trim(text: &[u8]) -> &[u8]
    ensures { result.now ≡ trimmed text.now }
{
    without_end(text_from(text, solid_at(text)))
}

/// The note that a connection's line ends with.
pub(crate) fn connection_note(line: &[u8]) -> &[u8]
    ensures { result.now ≡ note_after 3 line.now }
{
    trim(after_word(after_word(after_word(line))))
}

/// The note that a `*N` line ends with.
pub(crate) fn star_note(line: &[u8]) -> &[u8]
    ensures { result.now ≡ note_after 2 line.now }
{
    trim(after_word(after_word(line)))
}
