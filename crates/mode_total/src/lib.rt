//! Mode `total`: the trade-off of total cost and worst slack over all nets of a design, and the files in which the
//! cells of its last point are put.
#![tactic(auto)]

mod nets;
mod picks;
mod print;
mod put;
mod search;
mod total;

pub use total::total_for;
