//! The turns of a search along a net: what comes of the lists of a node above its wire.
#![tactic(auto)]

mod branch;
mod carry;
mod close;
mod part;
mod tools;

pub use branch::Branch;
pub use part::Part;
pub use tools::Tools;
