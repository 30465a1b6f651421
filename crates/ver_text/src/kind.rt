//! What a token is to the grammar.

/// The kind of a token.
#[derive(Clone, Copy, Debug, PartialEq, Eq, Drop)]
pub enum Kind {
    /// The keyword `module`.
    Module,
    /// The keyword `endmodule`.
    EndModule,
    /// A keyword for the direction of a port: `input`, `output` or `inout`.
    Direction,
    /// The keyword `wire`.
    Wire,
    /// A keyword for another type of nets: `tri`, `supply0` or `supply1`.
    NetType,
    /// The keyword `assign`.
    Assign,
    /// A keyword of parameters: `parameter` or `defparam`.
    Parameter,
    /// An identifier, simple or escaped.
    Identifier,
    /// The number 0, in decimal digits alone.
    Zero,
    /// A number above 0 and below 2^20, in decimal digits alone.
    Small,
    /// The number 2^20, in decimal digits alone.
    Limit,
    /// A number over 2^20, in decimal digits alone.
    Large,
    /// A number with a base.
    Based,
    /// `(`
    Open,
    /// `)`
    Close,
    /// `[`
    OpenSquare,
    /// `]`
    CloseSquare,
    /// `{`
    OpenBrace,
    /// `}`
    CloseBrace,
    /// `,`
    Comma,
    /// `;`
    Semicolon,
    /// `.`
    Dot,
    /// `:`
    Colon,
    /// `=`
    Equals,
    /// `#`
    Hash,
    /// What is no token.
    Stray,
}
