//! What a SPEF file alone says of a net: its tree, its wire delays, and why it is refused.
//!
//! Resistances are whole milliohms (mΩ), capacitances whole attofarads (aF), times whole zeptoseconds (zs).
#![tactic(auto)]

mod ends;
mod laws;
mod limits;
mod marks;
mod refusal;
mod sink_delays;
mod tree;
mod wire;

pub use ends::{driver_of, has_sink, is_sink};
pub use laws::one_answer;
pub use limits::MOST_CAPACITORS;
pub use marks::sink_marks;
pub use refusal::{Refusal, Refused};
pub use sink_delays::SinkDelays;
pub use tree::{named_net, tree_from};
pub use wire::{WireNet, wire_net};
