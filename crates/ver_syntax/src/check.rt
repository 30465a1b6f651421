//! Whether a text is a module.

ghost use Rattle.std.specs.Prelude.{◌≡◌, ◌⊎◌, find, OnOk, IfErr};
ghost use Rattle.ver_text.specs.Tokens.{tokens_of};
ghost use Rattle.ver_syntax.specs.Syntax.{line_at, is_bad, told_at, HasTokens, IsModule, IsGrammarFault, IsFirstFault, IsOutOfMemory};

use crate::braces::Braces;
use crate::fault::{VerFault, VerKind};
use crate::state::{At, Head};
use crate::step::{fault_kind, is_done, step};
use std::alloc::Global;
use ver_text::{Token, TokenKind, Tokens, kind_in};
use vg_scan::line_of;

/// The number of the line in which a place of a text stands; where the text ends there, of its last line, at least 1.
pub fn line_at(text: &[u8], at: usize) -> usize
    ensures { result ≡ line_at text.now at }
{
    line_of(text, at.min(text.len().saturating_sub(1)))
}

fn fault_at(text: &[u8], kind: VerKind, at: usize) -> VerFault
    ensures kind { result.kind ≡ kind }
    ensures line { result.line ≡ line_at text.now at }
{
    VerFault {
        kind,
        line: line_at(text, at),
    }
}

fn out_of_memory() -> VerFault
    ensures { IsOutOfMemory result }
{
    VerFault {
        kind: VerKind::Memory,
        line: 1,
    }
}

fn is_bad(token: Token) -> bool
    ensures { result ≡ is_bad token }
{
    match token.kind {
        TokenKind::Stray | TokenKind::Unclosed => true,
        _ => false,
    }
}

/// The place at which a token that is none is told.
fn told_at(text: &[u8], token: Token) -> usize
    ensures { result ≡ told_at text.now token }
{
    match token.kind {
        TokenKind::Unclosed => text.len(),
        _ => token.from,
    }
}

/// The first of a text's tokens that is none.
fn bad_token(text: &[u8]) -> Option<Token>
    ensures { result ≡ find is_bad (tokens_of text.now) }
{
    let mut tokens = Tokens::new(text);
    'token: while let Some(token) = tokens.next() {
        if is_bad(token) {
            return Some(token);
        }
    }
    None
}

/// Whether the tokens of a text are a module. If not, what is wrong with the first token that the grammar does not
/// allow, or with the text's end. Answers `Memory`, at line 1, where there is no room.
fn check_grammar(alloc: Global, text: &[u8]) -> Result<(), VerFault>
    ensures tokens { OnOk result (HasTokens text.now) }
    ensures module { OnOk result (IsModule text.now) }
    ensures fault { IfErr result (λ fault. IsOutOfMemory fault ⊎ IsGrammarFault text.now fault) }
{
    let mut tokens = Tokens::new(text);
    let mut at = At::Head(Head::Start);
    let mut braces = Braces::new(alloc);
    'token: while let Some(token) = tokens.next() {
        let kind = kind_in(text, token);
        let Ok(found) = step(at, kind, &mut braces) else {
            return Err(out_of_memory());
        };
        match found {
            None => return Err(fault_at(text, fault_kind(at, kind), token.from)),
            Some(next) => {
                at = next;
            }
        }
    }
    if is_done(at) {
        Ok(())
    } else {
        Err(fault_at(text, VerKind::Grammar, text.len()))
    }
}

/// Whether a text is a structural module (IEEE Std 1364-2005), or the first fault of its tokens, or of its grammar
/// where each of its tokens is one. Answers `Memory`, at line 1, where there is no room.
pub fn check_module(alloc: Global, text: &[u8]) -> Result<(), VerFault>
    ensures tokens { OnOk result (HasTokens text.now) }
    ensures module { OnOk result (IsModule text.now) }
    ensures fault { IfErr result (λ fault. IsOutOfMemory fault ⊎ IsFirstFault text.now fault) }
{
    // The grammar allows none of what is no token, so that a module is read once.
    let Err(fault) = check_grammar(alloc, text) else {
        return Ok(());
    };
    match bad_token(text) {
        Some(token) => Err(fault_at(text, VerKind::Token, told_at(text, token))),
        None => Err(fault),
    }
}
