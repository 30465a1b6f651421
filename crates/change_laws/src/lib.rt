//! The written files of a design into which cells are put, read and timed again.
//!
//! A theory alone: it puts together what `change_spef_laws` says of the parasitics, `change_netlist_laws` of the
//! netlist and `retime_laws` of the slack.
#![tactic(auto)]

mod laws;

pub use laws::{
    changed_texts_are_a_design, other_nets_time_as_before, placed_nets_retime_in_texts,
    times_of_designs_are_small,
};
