//! A placed net, cut at its cells into nets: one for the driver and one for each cell.
//!
//! So a placement stands in a netlist and in parasitics. The laws say which nets these are, that they have trees
//! whatever the order and the numbers of their nodes, and that they re-time to the slack and the polarities of the
//! placement.
//!
//! A theory alone: what writes netlists and parasitics is to stand on it.
#![tactic(auto)]

mod laws;

pub use laws::{
    bare_is_one_piece, built_pieces, cut_nets_climb, cut_nets_have_polarity, cut_nets_retime,
    one_retiming, pieces_act, pieces_are_joined, pieces_have_sinks, pieces_have_trees,
    renumbered_pieces, some_tree,
};
