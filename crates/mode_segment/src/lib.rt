//! Mode `segment`: the parasitics with the resistors of nets cut into parts.
#![tactic(auto)]

mod cut;
mod segment;

pub use segment::segment_for;
