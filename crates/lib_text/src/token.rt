//! Tokens and where they stand.

/// What a token is, by its bytes alone.
#[derive(Clone, Copy, Debug, PartialEq, Eq, Drop)]
pub enum TokenKind {
    /// An identifier: a letter or `_`, then letters, digits and `_`.
    Word,
    /// The value of a simple attribute, without blanks before it.
    Value,
    /// The arguments of a complex attribute or of a group, all that stands between the brackets.
    List,
    /// An empty value, or a value or a list with a byte over 126 outside strings.
    Broken,
    /// Another byte.
    Mark(u8),
}

/// A token of a text: the bytes from one place to another, the last one not taken in.
#[derive(Clone, Copy, Debug, PartialEq, Eq, Drop)]
pub struct Token {
    pub kind: TokenKind,
    pub from: usize,
    pub to: usize,
}

/// A token that is all of a statement but its name.
#[derive(Clone, Copy, Debug, PartialEq, Eq, Drop)]
pub(crate) enum Content {
    /// The value after a `:`.
    Value,
    /// The arguments after a `(`.
    List,
}

/// A token, and where the text goes on after it.
#[derive(Clone, Copy, Debug, PartialEq, Eq, Drop)]
pub(crate) struct Found {
    pub token: Token,
    pub at: usize,
    /// What the next token is, where the token tells it.
    pub content: Option<Content>,
}
