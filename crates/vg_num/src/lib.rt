//! Exact numbers of texts, printed numbers, and the small types that every crate shares.
//!
//! Nothing here rounds twice: a text denotes a fraction, and what is read is the whole number nearest to it.
#![tactic(auto)]

mod fault;
mod laws;
mod memory;
mod plain;
mod print;
mod read;
mod row;
mod signed;
mod text;
mod whole;

pub use fault::NumFault;
pub use laws::{reads_scaled_again, reads_signed_again};
pub use memory::Memory;
pub use print::{print_scaled, print_signed};
pub use read::read_scaled;
pub use row::Row;
pub use signed::read_signed;
pub use text::Text;
pub use whole::read_whole;
