//! What stands at a place of a text.

use crate::token::TokenKind;

/// A token, or what is passed over between tokens: the bytes that a byte begins.
#[derive(Clone, Copy)]
pub(crate) struct Piece {
    /// The token's kind. `None`: it is no token.
    pub kind: Option<TokenKind>,
    /// How many bytes follow the first.
    pub more: usize,
}

/// The same, up to a place of a text.
#[derive(Clone, Copy)]
pub(crate) struct Stretch {
    /// The token's kind. `None`: it is no token.
    pub kind: Option<TokenKind>,
    /// Where it ends.
    pub to: usize,
}

impl Piece {
    ghost use Rattle.std.specs.Prelude.{◌≡◌, ◌+◌, ◌^◌, ◌<◌};
    ghost use Rattle.ver_text.specs.Tokens.{token, passed};
    ghost use Rattle.ver_text.specs.Found.{after};

    pub(crate) fn token(kind: TokenKind, more: usize) -> Piece
        ensures { result ≡ token kind more }
    {
        Piece {
            kind: Some(kind),
            more,
        }
    }

    pub(crate) fn passed(more: usize) -> Piece
        ensures { result ≡ passed more }
    {
        Piece { kind: None, more }
    }

    /// Up to where a piece reaches whose first byte stands before this place.
    #[inline(always)]
    pub(crate) fn after(self, from: usize) -> Stretch
        requires { from + self.more < 2 ^ 64 }
        ensures { result ≡ after from self }
    {
        Stretch {
            kind: self.kind,
            to: from + self.more,
        }
    }
}

impl Stretch {
    ghost use Rattle.std.specs.Prelude.{◌≡◌, Some, None};

    #[inline(always)]
    pub(crate) fn token(kind: TokenKind, to: usize) -> Stretch
        ensures kind { result.kind ≡ Some kind }
        ensures to { result.to ≡ to }
    {
        Stretch {
            kind: Some(kind),
            to,
        }
    }

    #[inline(always)]
    pub(crate) fn passed(to: usize) -> Stretch
        ensures kind { result.kind ≡ None }
        ensures to { result.to ≡ to }
    {
        Stretch { kind: None, to }
    }
}
