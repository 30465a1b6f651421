//! Whether a text is a library.

ghost use Rattle.std.specs.Prelude.{◌≡◌, ◌≤◌, ℕ, length, MatchResult, IfErr};
ghost use Rattle.std.specs.Str.{bytes_eq};
ghost use Rattle.vg_scan.specs.Lines.{part};
ghost use Rattle.lib_text.specs.Kinds.{word_kind, mark_kind, kind_in};
ghost use Rattle.lib_text.specs.Moves.{next};
ghost use Rattle.lib_text.specs.Reading.{wants_names};
ghost use Rattle.lib_text.specs.Syntax.{IsLibrary, IsSyntaxFault, line_at};

use crate::arguments::list_kind;
use crate::kind::Kind;
use crate::lexer::next_token;
use crate::state::{At, Head, State};
use crate::step::{is_done, step};
use crate::token::{Token, TokenKind};
use vg_scan::{Span, line_of, text_at};

fn is_word(text: &[u8], word: &[u8]) -> bool
    ensures { result ≡ bytes_eq text.now word.now }
{
    text == word
}

fn word_kind(word: &[u8]) -> Kind
    ensures { result ≡ word_kind word.now }
{
    if is_word(word, b"library") {
        return Kind::Library;
    }
    if is_word(word, b"cell") {
        return Kind::Cell;
    }
    if is_word(word, b"pin") {
        return Kind::Pin;
    }
    Kind::Word
}

fn mark_kind(byte: u8) -> Kind
    ensures { result ≡ mark_kind byte }
{
    match byte {
        b':' => Kind::Colon,
        b'(' => Kind::Open,
        b')' => Kind::Close,
        b'{' => Kind::Begin,
        b'}' => Kind::End,
        b';' => Kind::Semicolon,
        _ => Kind::Stray,
    }
}

/// Whether the next arguments decide if the statement may be a group.
fn wants_names(at: At) -> bool
    ensures { result ≡ wants_names at }
{
    match at {
        At::Opened(Head::Cell) | At::Opened(Head::Pin) => true,
        _ => false,
    }
}

fn bytes_of(text: &[u8], token: Token) -> &[u8]
    ensures { result.now ≡ part text.now token.from token.to }
{
    text_at(
        text,
        Span {
            from: token.from,
            to: token.to,
        },
    )
}

/// The kind of a token, as far as it matters to the machine: the arguments of a group that has no name of its own are
/// not looked into.
fn kind_for(text: &[u8], token: Token, state: State) -> Kind
    ensures { next state result ≡ next state (kind_in text.now token) }
{
    match token.kind {
        TokenKind::Word => word_kind(bytes_of(text, token)),
        TokenKind::Value => Kind::Value,
        TokenKind::List => {
            if wants_names(state.at) {
                list_kind(bytes_of(text, token))
            } else {
                Kind::Other
            }
        }
        TokenKind::Broken => Kind::Stray,
        TokenKind::Mark(byte) => mark_kind(byte),
    }
}

/// Whether a text is a library, where its comments and its continued line ends are blank. If not, where the first token
/// begins that the grammar does not allow, or the text's end.
///
/// The grammar is that of the Liberty User Guide, Synopsys: groups, simple attributes and complex attributes. At most
/// 64 groups are open at once; a cell of the library has one name, a pin of a cell one or more.
pub fn check_syntax(text: &[u8]) -> Result<(), usize>
    ensures syntax { MatchResult result (λ _. IsLibrary text.now) (IsSyntaxFault text.now) }
    ensures within { IfErr result (λ at. at ≤ length text.now) }
{
    let mut state = State {
        at: At::Start,
        depth: 0,
        in_cell: false,
    };
    let mut at = 0;
    let mut content = None;
    'token: while let Some(found) = next_token(text, at, content) {
        match step(kind_for(text, found.token, state), state) {
            None => {
                return Err(found.token.from);
            }
            Some(next) => {
                state = next;
            }
        }
        at = found.at;
        content = found.content;
    }
    if is_done(state) {
        Ok(())
    } else {
        Err(text.len())
    }
}

/// The number of the line in which a place of a text stands; where the text ends there, of its last line, at least 1.
pub fn line_at(bytes: &[u8], at: usize) -> usize
    ensures { result ≡ line_at bytes.now at }
{
    line_of(bytes, at.min(bytes.len().saturating_sub(1)))
}
