//! Mode `width`: the best choice of cells and of one width for each wire of a net.
#![tactic(auto)]

mod print;
mod width;

pub use width::width_for;
