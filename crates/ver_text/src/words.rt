//! What the tokens of a text are to the grammar.

ghost use Rattle.std.specs.Prelude.{◌≡◌, ◌+◌, ◌^◌, min};
ghost use Rattle.std.specs.Str.{bytes_eq};
ghost use Rattle.vg_num.specs.Number.{value_of};
ghost use Rattle.vg_scan.specs.Lines.{part};
ghost use Rattle.ver_text.specs.Keywords.{begins_keyword};
ghost use Rattle.ver_text.specs.Kinds.{is_direction, is_net_type, is_parameter, word_kind, number_kind, digits_kind, mark_kind, kind_in};

use crate::kind::Kind;
use crate::token::{Token, TokenKind};
use vg_scan::{Span, text_at};

/// The greatest number of a bit.
const LIMIT: u32 = 1_048_576;

fn is_word(text: &[u8], word: &[u8]) -> bool
    ensures { result ≡ bytes_eq text.now word.now }
{
    text == word
}

fn is_direction(word: &[u8]) -> bool
    ensures { result ≡ is_direction word.now }
{
    is_word(word, b"input") || is_word(word, b"output") || is_word(word, b"inout")
}

fn is_net_type(word: &[u8]) -> bool
    ensures { result ≡ is_net_type word.now }
{
    is_word(word, b"tri") || is_word(word, b"supply0") || is_word(word, b"supply1")
}

fn is_parameter(word: &[u8]) -> bool
    ensures { result ≡ is_parameter word.now }
{
    is_word(word, b"parameter") || is_word(word, b"defparam")
}

/// Whether a keyword begins with a byte.
fn begins_keyword(byte: u8) -> bool
    ensures { result ≡ begins_keyword byte }
{
    matches!(
        byte,
        b'a' | b'd' | b'e' | b'i' | b'm' | b'o' | b'p' | b's' | b't' | b'w'
    )
}

#[inline(always)]
pub(crate) fn word_kind(word: &[u8]) -> Kind
    ensures { result ≡ word_kind word.now }
{
    // Few identifiers begin as a keyword does.
    match word {
        [first, ..] if begins_keyword(*first) => keyword_kind(word),
        _ => Kind::Identifier,
    }
}

/// The kind of a word that may be a keyword. Few identifiers are as long as a keyword, so its length comes first.
#[inline(never)]
fn keyword_kind(word: &[u8]) -> Kind
    ensures { result ≡ word_kind word.now }
{
    match word.len() {
        3 | 7 if is_net_type(word) => Kind::NetType,
        4 if is_word(word, b"wire") => Kind::Wire,
        5 | 6 if is_direction(word) => Kind::Direction,
        6 if is_word(word, b"assign") => Kind::Assign,
        6 if is_word(word, b"module") => Kind::Module,
        8 | 9 if is_parameter(word) => Kind::Parameter,
        9 if is_word(word, b"endmodule") => Kind::EndModule,
        _ => Kind::Identifier,
    }
}

fn number_kind(value: u32) -> Kind
    ensures { result ≡ number_kind value }
{
    if value == 0 {
        Kind::Zero
    } else if value < LIMIT {
        Kind::Small
    } else if value == LIMIT {
        Kind::Limit
    } else {
        Kind::Large
    }
}

/// The number that decimal digits write, such as the number of a bit; no number over 2^20 is told apart.
pub fn number_of(digits: &[u8]) -> u32
    ensures { result ≡ min (value_of digits.now) (2 ^ 20 + 1) }
{
    let mut value = 0u32;
    'digit: for digit in digits {
        let more = value * 10 + (*digit).saturating_sub(b'0') as u32;
        value = more.min(LIMIT + 1);
    }
    value
}

#[inline(never)]
fn digits_kind(digits: &[u8]) -> Kind
    ensures { result ≡ digits_kind digits.now }
{
    number_kind(number_of(digits))
}

#[inline(always)]
fn mark_kind(byte: u8) -> Kind
    ensures { result ≡ mark_kind byte }
{
    match byte {
        b'(' => Kind::Open,
        b')' => Kind::Close,
        b'[' => Kind::OpenSquare,
        b']' => Kind::CloseSquare,
        b'{' => Kind::OpenBrace,
        b'}' => Kind::CloseBrace,
        b',' => Kind::Comma,
        b';' => Kind::Semicolon,
        b'.' => Kind::Dot,
        b':' => Kind::Colon,
        b'=' => Kind::Equals,
        b'#' => Kind::Hash,
        _ => Kind::Stray,
    }
}

fn bytes_of(text: &[u8], token: Token) -> &[u8]
    ensures { result.now ≡ part text.now token.from token.to }
{
    text_at(
        text,
        Span {
            from: token.from,
            to: token.to,
        },
    )
}

/// What a token of a text is to the grammar.
#[inline(always)]
pub fn kind_in(text: &[u8], token: Token) -> Kind
    ensures { result ≡ kind_in text.now token }
{
    match token.kind {
        TokenKind::Word => word_kind(bytes_of(text, token)),
        TokenKind::Escaped => Kind::Identifier,
        TokenKind::Digits => digits_kind(bytes_of(text, token)),
        TokenKind::Based => Kind::Based,
        TokenKind::Mark(byte) => mark_kind(byte),
        TokenKind::Stray | TokenKind::Unclosed => Kind::Stray,
    }
}
