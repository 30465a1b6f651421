//! The syntax of a structural Verilog module: whether a text is one, its first fault, and what each token stands in.
//!
//! The text is read in place, token by token: only the braces that are open in an expression take memory.
#![tactic(auto)]

mod braces;
mod check;
mod fault;
mod laws;
mod machine;
mod phrase;
mod row;
mod rows;
mod state;
mod step;

pub use check::{check_module, line_at};
pub use fault::{VerFault, VerKind};
pub use laws::{items_stand_at_their_start, texts_have_one_first_fault};
pub use machine::Machine;
pub use row::{Place, Row};
pub use rows::Rows;
