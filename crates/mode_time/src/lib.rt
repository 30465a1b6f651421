//! Mode `time`: the slacks of nets, through the cells that were put in.
#![tactic(auto)]

mod time;

pub use time::time_for;
