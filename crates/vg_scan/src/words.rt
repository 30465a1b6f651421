//! The words of a line.

ghost use Rattle.std.specs.Prelude.{◌≡◌, ◌==◌, ◌+◌, ◌≤◌, ◌∷◌, [], length, drop, OnOk, MatchOption};
ghost use Rattle.std.specs.Iterator.{YieldsFirstRef, item_count};
ghost use Rattle.std.specs.List.{position_or_len};
ghost use Rattle.vg_scan.specs.Lines.{is_blank, is_ink, is_low, words};
ghost use Rattle.vg_scan.specs.Spans.{IsIn, part_at, words_at};

use crate::lines::Span;
use std::marker::Model;
use vg_num::Memory;

fn is_blank(byte: u8) -> bool
    ensures { result ≡ is_blank byte }
{
    byte <= b' ' && (byte == b' ' || byte == b'\t')
}

/// Where the first byte that is no blank stands from a place on, or the end.
fn ink_from(line: &[u8], start: usize) -> usize
    requires { start ≤ length line.now }
    ensures { result ≡ start + position_or_len is_ink (drop start line.now) }
{
    let mut at = start;
    'blank: while at < line.len() && is_blank(line[at]) {
        at += 1;
    }
    at
}

fn is_low(byte: u8) -> bool
    ensures { result ≡ is_low byte }
{
    byte <= b' '
}

/// Where the first byte up to the space stands from a place on, or the end.
fn low_from(line: &[u8], start: usize) -> usize
    requires { start ≤ length line.now }
    ensures { result ≡ start + position_or_len is_low (drop start line.now) }
{
    let mut at = start;
    'high: while at < line.len() && !is_low(line[at]) {
        at += 1;
    }
    at
}

/// Where the first blank stands from a place on, or the end. Nearly all bytes of words are above the space, so these
/// are passed over by one comparison.
fn blank_from(line: &[u8], start: usize) -> usize
    requires { start ≤ length line.now }
    ensures { result ≡ start + position_or_len is_blank (drop start line.now) }
{
    let mut at = low_from(line, start);
    'ink: while at < line.len() && !is_blank(line[at]) {
        at = low_from(line, at + 1);
    }
    at
}

/// Puts the words of a line in place of what the list held. Answers `Memory` where there is no room.
pub fn words_of(bytes: &[u8], line: Span, found: &mut Vec<Span>) -> Result<(), Memory>
    requires { IsIn bytes.now line }
    ensures { OnOk result (words_at bytes.now found.new.items ≡ words (part_at bytes.now line)) }
{
    found.clear();
    let text = &bytes[line.from..line.to];
    let mut from = ink_from(text, 0);
    'word: while from < text.len() {
        let to = blank_from(text, from);
        found.push(Span {
            from: line.from + from,
            to: line.from + to,
        })?;
        from = ink_from(text, to);
    }
    Ok(())
}

/// The first word of a line, and what follows it. `None`: the line has only blanks.
fn first_word(line: &[u8]) -> Option<(&[u8], &[u8])>
    ensures { MatchOption result (words line.now ≡ []) (λ found. words line.now ≡ found.0.now ∷ words found.1.now) }
{
    let from = ink_from(line, 0);
    if from >= line.len() {
        return None;
    }
    let to = blank_from(line, from);
    Some((&line[from..to], &line[to..]))
}

/// The words of a line, one after another. Contracts see the list of those that are left.
#[derive(Debug, Drop)]
pub struct Words<'a> {
    rest: &'a [u8],
}

impl<'a> Model for Words<'a> {
    ghost use Rattle.vg_scan.specs.Lines.{words, Line};

    ghost Value = { Line };

    ghost view = { λ left. words left.rest.now };
}

impl<'a> Words<'a> {
    /// All words of a line.
    pub fn new(line: &'a [u8]) -> Words<'a>
        ensures { result ≡ words line.now }
    {
        Words { rest: line }
    }

    /// Whether no word is left.
    pub fn is_empty(&self) -> bool
        ensures { result ≡ (length self.now == 0) }
    {
        first_word(self.rest).is_none()
    }
}

impl<'a> Iterator for Words<'a> {
    type Item = &'a [u8];

    ghost next_gives = { YieldsFirstRef (λ left. left) };

    ghost remaining = { item_count (λ left. left) };

    fn next(&mut self) -> Option<&'a [u8]> {
        let (word, rest) = first_word(self.rest)?;
        self.rest = rest;
        Some(word)
    }
}
