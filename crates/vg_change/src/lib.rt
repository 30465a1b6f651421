//! The changed netlist and parasitics of a design in which cells are put into nets.
//!
//! Resistances are whole milliohms (mΩ), capacitances whole attofarads (aF).
#![tactic(auto)]

mod begins;
mod cells;
mod changes;
mod keeper;
mod prefix;
mod rewires;
mod sections;
mod taken_name;

pub use changes::{Changes, Patches};
pub use taken_name::TakenName;
