//! A net with cells, split into a net for each stage, as parasitics name their parts (IEEE Std 1481-1999); what each
//! stage drives, from node to node.
//!
//! Resistances are whole milliohms (mΩ), capacitances whole attofarads (aF).
#![tactic(auto)]

mod names;
mod scratch;
mod split;
mod stage;
mod stages;

pub use names::{push_cell_name, push_net_name};
pub use scratch::Room;
pub use split::Split;
pub use stage::write_stage;
pub use stages::Stages;
