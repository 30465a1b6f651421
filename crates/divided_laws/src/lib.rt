//! Trees and problems whose wires are divided: each resistor may become a chain of resistors over new nodes, so that
//! cells can stand along a wire. Nothing changes at the nodes that stood before.
//!
//! A theory alone: what cuts the wires of a net is to stand on it.
#![tactic(auto)]

mod laws;

pub use laws::{
    divided_problems_are_no_worse, divided_problems_keep_good, divided_problems_keep_slack,
    divided_trees_act_alike, divided_trees_keep_sinks_below, divided_trees_keep_totals,
    divided_trees_keep_wire_delays, loaded_trees_are_divided,
};
