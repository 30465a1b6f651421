//! The parasitics of a changed design are read again as they were meant.
//!
//! A theory alone: `vg_change` has the code.
#![tactic(auto)]

mod laws;

pub use laws::{
    changed_nets_are_read, nets_are_split, one_index, other_nets_stay, sections_are_replaced,
    splits_go_on,
};
