//! The net that is written for a stage of a net with cells is, also when it is read again, the piece of the placed net
//! that begins where the stage does.
//!
//! A theory alone: what says that written files re-time to a placement's slack is to stand on it.
#![tactic(auto)]

mod laws;

pub use laws::{
    cells_are_repeaters, read_nets_are_the_same, read_stages_are_accepted, read_stages_are_pieces,
    read_stages_are_the_same, read_stages_have_pieces, stage_nets_are_pieces, stages_are_cut,
};
