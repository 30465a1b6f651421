//! A net timed through the cells that were put in: those instances whose names begin with a prefix and whose cells are
//! repeaters.
//!
//! Resistances are whole milliohms (mΩ), capacitances whole attofarads (aF), times whole zeptoseconds (zs).
#![tactic(auto)]

mod climb;
mod come;
mod down;
mod laws;
mod passages;
mod retiming;
mod signals;
mod walk_net;

pub use laws::{one_timing, retimed_or_refused};
pub use retiming::retime;
