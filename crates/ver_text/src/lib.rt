//! The text of a structural Verilog module: its tokens, and what they are to the grammar.
//!
//! The text is read in place, token by token: nothing is copied, and no token is kept.
#![tactic(auto)]

mod class;
mod kind;
mod lanes;
mod laws;
mod lexer;
mod name;
mod piece;
mod print;
mod token;
mod tokens;
mod words;

pub use kind::Kind;
pub use laws::{tokens_stand_in_order, written_tokens_are_read_again};
pub use name::{is_escaped, is_simple, name_of};
pub use print::{print_escaped, print_name};
pub use token::{Token, TokenKind};
pub use tokens::Tokens;
pub use words::{kind_in, number_of};
