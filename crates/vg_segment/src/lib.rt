//! Wire segmenting: nets whose resistors are cut into parts, so that cells can stand along their wires, and their
//! sections in a file.
//!
//! Resistances are whole milliohms (mΩ), capacitances whole attofarads (aF).
#![tactic(auto)]

mod by_node;
mod cut;
mod fit;
mod laws;
mod leaves;
mod nodes;
mod parts;
mod text;

pub use cut::segment;
pub use fit::{cut_count, fit_net};
pub use laws::one_segmented;
pub use text::segment_text;
