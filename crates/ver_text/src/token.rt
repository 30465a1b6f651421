//! Tokens and where they stand.

/// What a token is, by its bytes alone (IEEE Std 1364-2005, clause 3).
#[derive(Clone, Copy, Debug, PartialEq, Eq, Drop)]
pub enum TokenKind {
    /// A simple identifier, or a keyword: a letter or `_`, then letters, digits, `_` and `$`.
    Word,
    /// An escaped identifier: a backslash, which is no part of the name, and bytes from 33 to 126.
    Escaped,
    /// A number that is decimal digits alone.
    Digits,
    /// A number with a base: a size or none, `'`, `s` or none, the base's letter, and digits of the base.
    Based,
    /// One of the bytes `( ) [ ] { } , ; . : = #`.
    Mark(u8),
    /// A byte that begins no token.
    Stray,
    /// A comment or an attribute that does not end, up to the text's end.
    Unclosed,
}

/// A token of a text: the bytes from one place to another, the last one not taken in.
#[derive(Clone, Copy, Debug, PartialEq, Eq, Drop)]
pub struct Token {
    pub kind: TokenKind,
    pub from: usize,
    pub to: usize,
}
