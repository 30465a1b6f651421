//! A net in which cells are put is, in the changed design, a chain of nets that re-times to the slack of the placement.
//!
//! A theory alone: what says that written files re-time to a placement's slack is to stand on it.
#![tactic(auto)]

mod laws;

pub use laws::{
    new_nets_are_cut, placed_nets_are_refused, placed_nets_retime, placed_nets_time,
    stages_are_accepted, stages_are_large_by_loads, stages_are_timed, stages_have_loads,
    stages_have_nets, stages_retime,
};
