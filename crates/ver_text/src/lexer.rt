//! What a byte of a text begins.

ghost use Rattle.std.specs.Prelude.{◌≡◌, ◌+◌, ◌^◌, ◌≤◌, ◌<◌, length, drop, true};
ghost use Rattle.std.specs.List.{prefix_len};
ghost use Rattle.ver_text.specs.Bytes.{is_printable};
ghost use Rattle.ver_text.specs.Found.{after, rare_before};
ghost use Rattle.ver_text.specs.Tokens.{begins, with_more, digits_of, base_length, signed_length, based_length, number_before, unsized_before, escaped_before, closes, before_close, enclosed, slash_before, bracket_before, directive_length, mark_before, piece};

use crate::class::{Base, Class, is_blank, is_digit, is_letter, is_mark};
use crate::lanes::{LANES, printable_lanes};
use crate::piece::{Piece, Stretch};
use crate::token::TokenKind;
use vg_scan::text_from;

fn begins(byte: u8, text: &[u8]) -> bool
    ensures test { result ≡ begins byte text.now }
    ensures some { result ≡ true → 0 < length text.now }
{
    match text {
        [] => false,
        [first, ..] => *first == byte,
    }
}

/// So many bytes more after these, or none.
fn with_more(before: usize, more: usize) -> usize
    requires { before + more < 2 ^ 64 }
    ensures { result ≡ with_more before more }
{
    if more == 0 { 0 } else { before + more }
}

fn digits_of(base: Option<Base>, text: &[u8]) -> usize
    ensures length { result ≡ digits_of base text.now }
    ensures within { result ≤ length text.now }
{
    match base {
        None => 0,
        Some(base) => Class::DigitOf(base).run(text),
    }
}

/// How many bytes a base and its digits take at the beginning of a text; 0 where they do not stand there.
fn base_length(text: &[u8]) -> usize
    ensures length { result ≡ base_length text.now }
    ensures within { result ≤ length text.now }
{
    match text {
        [] => 0,
        [letter, rest @ ..] => with_more(1, digits_of(Base::of(*letter), rest)),
    }
}

/// The same, where an `s` may stand before the base.
#[inline(never)]
fn signed_length(text: &[u8]) -> usize
    ensures length { result ≡ signed_length text.now }
    ensures within { result ≤ length text.now }
{
    if begins(b's', text) {
        with_more(1, base_length(&text[1..]))
    } else {
        base_length(text)
    }
}

/// The same, with a `'` before it.
#[inline(always)]
fn based_length(text: &[u8]) -> usize
    ensures length { result ≡ based_length text.now }
    ensures within { result ≤ length text.now }
{
    if begins(b'\'', text) {
        with_more(1, signed_length(&text[1..]))
    } else {
        0
    }
}

/// The number that begins with a digit before a place of a text.
#[inline(always)]
fn number_before(text: &[u8], from: usize) -> Stretch
    requires { from ≤ length text.now }
    ensures piece { result ≡ after from (number_before (drop from text.now)) }
    ensures within { result.to ≤ length text.now }
{
    let end = Class::Digit.end(text, from);
    let based = based_length(text_from(text, end));
    if based == 0 {
        Stretch::token(TokenKind::Digits, end)
    } else {
        Stretch::token(TokenKind::Based, end + based)
    }
}

/// The number that begins with a `'` before a text.
#[inline(never)]
fn unsized_before(rest: &[u8]) -> Piece
    ensures piece { result ≡ unsized_before rest.now }
    ensures within { result.more ≤ length rest.now }
{
    let more = signed_length(rest);
    if more == 0 {
        Piece::token(TokenKind::Stray, 0)
    } else {
        Piece::token(TokenKind::Based, more)
    }
}

/// Where the printable bytes end that stand at a place of a text. Most names are long, so that many are read at a time.
#[inline(always)]
fn printable_end(text: &[u8], from: usize) -> usize
    requires { from ≤ length text.now }
    ensures run { result ≡ from + prefix_len is_printable (drop from text.now) }
    ensures within { result ≤ length text.now }
{
    let mut end = from;
    'load: while text.len() - end >= LANES {
        let run = printable_lanes(text, end);
        if run < LANES {
            return end + run;
        }
        end += LANES;
    }
    Class::Printable.end(text, end)
}

/// The identifier that begins with a backslash before a place of a text.
#[inline(always)]
fn escaped_before(text: &[u8], from: usize) -> Stretch
    requires { from ≤ length text.now }
    ensures piece { result ≡ after from (escaped_before (drop from text.now)) }
    ensures within { result.to ≤ length text.now }
{
    let end = printable_end(text, from);
    if end == from {
        Stretch::token(TokenKind::Stray, from)
    } else {
        Stretch::token(TokenKind::Escaped, end)
    }
}

/// Whether a text begins with a `*` and this byte.
fn closes(close: u8, text: &[u8]) -> bool
    ensures test { result ≡ closes close text.now }
    ensures some { result ≡ true → 2 ≤ length text.now }
{
    match text {
        [] => false,
        [first, rest @ ..] => *first == b'*' && begins(close, rest),
    }
}

/// How many bytes stand before the first `*` with this byte after it, or in all.
fn before_close(close: u8, text: &[u8]) -> usize
    ensures length { result ≡ before_close close text.now }
    ensures within { result ≤ length text.now }
    ensures closed { result < length text.now → result + 2 ≤ length text.now }
{
    let mut end = 0;
    'close: while end < text.len() {
        if closes(close, &text[end..]) {
            return end;
        }
        end += 1;
    }
    end
}

/// A comment or an attribute, after its first two bytes, up to a `*` and this byte.
#[inline(never)]
fn enclosed(close: u8, text: &[u8]) -> Piece
    ensures piece { result ≡ enclosed close text.now }
    ensures within { result.more ≤ length text.now + 1 }
{
    let before = before_close(close, text);
    if before == text.len() {
        Piece::token(TokenKind::Unclosed, 1 + before)
    } else {
        Piece::passed(3 + before)
    }
}

/// What a `/` begins before a text.
#[inline(never)]
fn slash_before(rest: &[u8]) -> Piece
    ensures piece { result ≡ slash_before rest.now }
    ensures within { result.more ≤ length rest.now }
{
    if begins(b'/', rest) {
        return Piece::passed(Class::InLine.run(rest));
    }
    if begins(b'*', rest) {
        return enclosed(b'/', &rest[1..]);
    }
    Piece::token(TokenKind::Stray, 0)
}

/// What a `(` begins before a place of a text.
#[inline(always)]
fn bracket_before(text: &[u8], from: usize) -> Stretch
    requires { from ≤ length text.now }
    ensures piece { result ≡ after from (bracket_before (drop from text.now)) }
    ensures within { result.to ≤ length text.now }
{
    let rest = text_from(text, from);
    if begins(b'*', rest) {
        enclosed(b')', &rest[1..]).after(from)
    } else {
        Stretch::token(TokenKind::Mark(b'('), from)
    }
}

/// How many bytes a compiler directive takes at the beginning of a line; 0 where none stands there.
#[inline(always)]
pub(crate) fn directive_length(line: &[u8]) -> usize
    ensures length { result ≡ directive_length line.now }
    ensures within { result ≤ length line.now }
{
    let blanks = Class::Blank.run(line);
    if begins(b'`', &line[blanks..]) {
        Class::InLine.run(line)
    } else {
        0
    }
}

/// What a byte begins before a text that few texts have: a comment, a number with no size, a carriage return, or
/// nothing.
#[inline(never)]
fn rare_before(byte: u8, rest: &[u8]) -> Piece
    ensures piece { result ≡ rare_before byte rest.now }
    ensures within { result.more ≤ length rest.now }
{
    if byte == b'/' {
        return slash_before(rest);
    }
    if byte == b'\'' {
        return unsized_before(rest);
    }
    if byte == b'\r' && begins(b'\n', rest) {
        return Piece::passed(0);
    }
    Piece::token(TokenKind::Stray, 0)
}

/// The same, before a place of a text.
#[inline(always)]
fn rare_from(byte: u8, text: &[u8], from: usize) -> Stretch
    requires { from ≤ length text.now }
    ensures piece { result ≡ after from (rare_before byte (drop from text.now)) }
    ensures within { result.to ≤ length text.now }
{
    rare_before(byte, text_from(text, from)).after(from)
}

/// What a byte begins before a place of a text that is no blank, letter or digit and ends no line.
#[inline(always)]
fn mark_before(byte: u8, text: &[u8], from: usize) -> Stretch
    requires { from ≤ length text.now }
    ensures piece { result ≡ after from (mark_before byte (drop from text.now)) }
    ensures within { result.to ≤ length text.now }
{
    if byte == b'(' {
        return bracket_before(text, from);
    }
    if is_mark(byte) {
        return Stretch::token(TokenKind::Mark(byte), from);
    }
    if byte == b'\\' {
        return escaped_before(text, from);
    }
    rare_from(byte, text, from)
}

/// What a byte begins before a place of a text.
#[inline(always)]
pub(crate) fn piece(byte: u8, text: &[u8], from: usize) -> Stretch
    requires { from ≤ length text.now }
    ensures piece { result ≡ after from (piece byte (drop from text.now)) }
    ensures within { result.to ≤ length text.now }
{
    if is_blank(byte) {
        return Stretch::passed(from);
    }
    if is_letter(byte) {
        return Stretch::token(TokenKind::Word, Class::Word.end(text, from));
    }
    if is_digit(byte) {
        return number_before(text, from);
    }
    if byte == b'\n' {
        return Stretch::passed(from + directive_length(text_from(text, from)));
    }
    mark_before(byte, text, from)
}
