//! Mode `sta`: the slacks of a whole design, over all paths through its nets and cells.
#![tactic(auto)]

mod lines;
mod sta;

pub use sta::sta_for;
