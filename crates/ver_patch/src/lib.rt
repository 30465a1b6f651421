//! A netlist with connections made anew, new wires and new instances (IEEE Std 1364-2005), all other bytes kept.
#![tactic(auto)]

mod cells;
mod laws;
mod order;
mod print;
mod rewires;
mod text;

pub use cells::{CellTexts, NewCells};
pub use laws::spans_rise;
pub use rewires::Rewires;
pub use text::patch;
