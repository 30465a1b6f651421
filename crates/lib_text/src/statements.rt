//! The statements of a text, one after another.

ghost use Rattle.std.specs.Prelude.{◌≡◌, ◌^◌, ◌<◌, ◌≤◌, ◌∷◌, ◌++◌, [], length, reverse, IfOk};
ghost use Rattle.lib_text.specs.Found.{tokens_next};
ghost use Rattle.lib_text.specs.Growing.{TakesFound};
ghost use Rattle.lib_text.specs.Statements.{is_byte, form_before, open_group, statement, top, pop, open_after, name_after, statements_of};
ghost use Rattle.lib_text.specs.declared.token.TokenKind.TheVariants.{Mark};

use crate::lexer::next_token;
use crate::statement::{Form, Statement};
use crate::token::{Content, Found, Token, TokenKind};
use std::alloc::Global;
use vg_num::Memory;

fn is_byte(byte: u8, kind: TokenKind) -> bool
    ensures { result ≡ is_byte byte kind }
{
    match kind {
        TokenKind::Mark(mark) => mark == byte,
        _ => false,
    }
}

/// Whether `)` and `{` are the next tokens.
fn opens_group(text: &[u8], at: usize, content: Option<Content>) -> bool
    requires { at ≤ length text.now }
    ensures { result ≡ open_group (tokens_next text.now content at) }
{
    match next_token(text, at, content) {
        None => false,
        Some(close) => match next_token(text, close.at, close.content) {
            None => false,
            Some(open) => is_byte(b')', close.token.kind) && is_byte(b'{', open.token.kind),
        },
    }
}

fn form_before(text: &[u8], at: usize, content: Option<Content>) -> Form
    requires { at ≤ length text.now }
    ensures { result ≡ form_before (tokens_next text.now content at) }
{
    if opens_group(text, at, content) {
        Form::Group
    } else {
        Form::Complex
    }
}

/// The innermost of the groups that are open.
fn top(groups: &Vec<u32>) -> u32
    ensures { result ≡ top (reverse groups.now.items) }
{
    let len = groups.len();
    if len == 0 {
        return 0;
    }
    groups[len - 1]
}

fn pop(groups: &mut Vec<u32>)
    ensures { reverse groups.new.items ≡ pop (reverse groups.old.items) }
{
    let _ = groups.pop();
}

/// Opens the group whose name was read last, or ends the innermost group, or neither.
fn take_mark(groups: &mut Vec<u32>, byte: u8, name: u32) -> Result<(), Memory>
    ensures { IfOk result (λ _. reverse groups.new.items ≡ open_after (Mark byte) (reverse groups.old.items) name) }
{
    if byte == b'{' {
        groups.push(name)?;
        return Ok(());
    }
    if byte == b'}' {
        pop(groups);
    }
    Ok(())
}

fn name_after(token: Token, name: u32) -> u32
    requires { token.from < 2 ^ 32 }
    ensures { result ≡ name_after token.kind token name }
{
    match token.kind {
        TokenKind::Word => token.from as u32,
        _ => name,
    }
}

/// The statement with this name whose value or arguments are a token.
fn statement(group: u32, form: Form, name: u32, token: Token) -> Statement
    requires { (token.from < 2 ^ 32) × (token.to < 2 ^ 32) }
    ensures { result ≡ statement group form name token }
{
    Statement {
        group,
        form,
        name,
        from: token.from as u32,
        to: token.to as u32,
    }
}

/// Takes a token that was found in a text, with the name read last.
fn take_token(
    text: &[u8],
    found: Found,
    name: u32,
    groups: &mut Vec<u32>,
    statements: &mut Vec<Statement>,
) -> Result<(), Memory>
    requires within { found.at ≤ length text.now }
    requires places { (found.token.from < 2 ^ 32) × (found.token.to < 2 ^ 32) }
    ensures { IfOk result (λ _. TakesFound text.now found name (groups.old.items, groups.new.items)
        (statements.old.items, statements.new.items)) }
{
    let token = found.token;
    let group = top(groups);
    match token.kind {
        TokenKind::Value => {
            statements.push(statement(group, Form::Simple, name, token))?;
        }
        TokenKind::List => {
            let form = form_before(text, found.at, found.content);
            statements.push(statement(group, form, name, token))?;
        }
        TokenKind::Mark(byte) => {
            take_mark(groups, byte, name)?;
        }
        _ => {}
    }
    Ok(())
}

/// The statements of a text, where its comments and its continued line ends are blank. Answers `Memory` where there is
/// no room.
pub fn statements_of(alloc: Global, text: &[u8]) -> Result<Vec<Statement>, Memory>
    requires { length text.now ≤ 2 ^ 28 }
    ensures { IfOk result (λ statements. statements.items ≡ statements_of text.now) }
{
    let mut statements: Vec<Statement> = Vec::new(alloc);
    let mut groups: Vec<u32> = Vec::new(alloc);
    let mut name = 0;
    let mut at = 0;
    let mut content = None;
    'token: while let Some(found) = next_token(text, at, content) {
        take_token(text, found, name, &mut groups, &mut statements)?;
        name = name_after(found.token, name);
        at = found.at;
        content = found.content;
    }
    Ok(statements)
}
