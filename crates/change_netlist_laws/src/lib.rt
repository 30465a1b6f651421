//! The netlist of a design into which cells are put is a netlist again, and its pins are on the nets of the stages.
//!
//! A theory alone: what says that written files re-time to a placement's slack is to stand on it.
#![tactic(auto)]

mod laws;

pub use laws::{netlists_are_read_again, nets_are_split, other_nets_stay, stages_are_nets};
