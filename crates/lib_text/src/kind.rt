//! What a token is to the grammar.

/// The kind of a token.
#[derive(Clone, Copy, Debug, PartialEq, Eq, Drop)]
pub enum Kind {
    /// The identifier `library`.
    Library,
    /// The identifier `cell`.
    Cell,
    /// The identifier `pin`.
    Pin,
    /// Another identifier.
    Word,
    /// `:`
    Colon,
    /// The value of a simple attribute.
    Value,
    /// `(`
    Open,
    /// Arguments that are one name.
    Single,
    /// Arguments that are several names.
    Several,
    /// Other arguments.
    Other,
    /// `)`
    Close,
    /// `{`
    Begin,
    /// `}`
    End,
    /// `;`
    Semicolon,
    /// What stands nowhere in the grammar.
    Stray,
}
