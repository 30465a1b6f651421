//! The tokens of a text, one after another.

ghost use Rattle.std.specs.Prelude.{◌≡◌, ◌≤◌, [], length, drop, MatchOption};
ghost use Rattle.ver_text.specs.Tokens.{tokens_from};
ghost use Rattle.ver_text.specs.Found.{IsFirst};

use crate::lexer::{directive_length, piece};
use crate::token::Token;
use std::marker::Model;

/// The first token of a text from a place on. `None`: there is none.
#[inline(always)]
fn next_token(text: &[u8], start: usize) -> Option<Token>
    requires { start ≤ length text.now }
    ensures { MatchOption result (tokens_from 0 start (drop start text.now) ≡ []) (IsFirst start text.now) }
{
    let mut at = start;
    'piece: while at < text.len() {
        let piece = piece(text[at], text, at + 1);
        if let Some(kind) = piece.kind {
            return Some(Token {
                kind,
                from: at,
                to: piece.to,
            });
        }
        at = piece.to;
    }
    None
}

/// The tokens of a text in order. Contracts see the list of those that are left.
///
/// They are those of IEEE Std 1364-2005. Blanks are spaces and tabs; a line ends with a newline, or with a carriage
/// return and a newline. Comments, attributes from `(*` to `*)`, and lines whose first byte but blanks is a backquote
/// are passed over. Digits are in lower case, as in `8'hff`.
#[derive(Debug, Drop)]
pub struct Tokens<'a> {
    text: &'a [u8],
    at: usize,
}

impl<'a> Model for Tokens<'a> {
    ghost use Rattle.std.specs.Prelude.{◌≤◌, List, length, drop};
    ghost use Rattle.ver_text.specs.declared.token.Token.{Token as TokenSpec};
    ghost use Rattle.ver_text.specs.Tokens.{tokens_from};

    ghost Value = { List TokenSpec };

    ghost view = { λ left. tokens_from 0 left.at (drop left.at left.text.now) };

    ghost invariant = { λ left. left.at ≤ length left.text.now };
}

impl<'a> Tokens<'a> {
    ghost use Rattle.ver_text.specs.Tokens.{tokens_of};

    /// All tokens of a text.
    pub fn new(text: &'a [u8]) -> Tokens<'a>
        ensures { result ≡ tokens_of text.now }
    {
        Tokens {
            text,
            at: directive_length(text),
        }
    }

    /// The tokens that are left, to be walked beside these.
    pub fn again(&self) -> Tokens<'a>
        ensures { result ≡ self.now }
    {
        Tokens {
            text: self.text,
            at: self.at,
        }
    }
}

impl<'a> Iterator for Tokens<'a> {
    ghost use Rattle.std.specs.Iterator.{YieldsFirst, item_count};

    type Item = Token;

    ghost next_gives = { YieldsFirst (λ left. left) };

    ghost remaining = { item_count (λ left. left) };

    #[inline(always)]
    fn next(&mut self) -> Option<Token> {
        let token = next_token(self.text, self.at)?;
        self.at = token.to;
        Some(token)
    }
}
