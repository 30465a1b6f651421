//! The text of a Liberty library: its tokens, whether they are a library, and its statements with the groups around
//! them.
//!
//! The text is read in place, token by token: nothing is copied, and no token is kept.
#![tactic(auto)]

mod arguments;
mod group;
mod join;
mod kind;
mod lexer;
mod quoting;
mod state;
mod statement;
mod statements;
mod step;
mod syntax;
mod text;
mod token;

pub use arguments::{Arguments, two_arguments};
pub use group::{Group, Groups};
pub use kind::Kind;
pub use statement::{Form, Statement};
pub use statements::statements_of;
pub use syntax::{check_syntax, line_at};
pub use text::plain_text;
pub use token::{Token, TokenKind};
