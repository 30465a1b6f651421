//! What follows where the cells of placements are put into nets, and the texts of their design are written anew.
//!
//! A theory alone, over `vg_place`.
#![tactic(auto)]

mod laws;

pub use laws::written_placements_retime;
