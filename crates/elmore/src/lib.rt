//! Routed nets as trees of resistors and capacitors, and their Elmore delays.
//!
//! Resistances are whole milliohms (mΩ), capacitances whole attofarads (aF) and times whole zeptoseconds (zs):
//! one mΩ times one aF is one zs.
#![tactic(auto)]

mod allowed;
mod costs;
mod frontier_laws;
mod laws;
mod legal;
mod limits;
mod live;
mod loads;
mod pair;
mod parts;
mod placement;
mod polarity;
mod problem;
mod rep;
mod scratch;
mod slacks;
mod sums;
mod tree;
mod wire;

pub use allowed::Allowed;
pub use costs::cost;
pub use frontier_laws::{
    best_is_last, frontier_is_whole, frontier_rises, one_frontier, one_slack, undominated_is_exact,
};
pub use laws::{
    bare_loads, below_decides, delay_steps, downstream_steps, load_steps, one_stage,
    placed_delay_steps, root_drives_all,
};
pub use legal::first_illegal;
pub use loads::load_of;
pub use pair::Pair;
pub use parts::{Driver, Sink};
pub use placement::Placement;
pub use polarity::first_wrong;
pub use problem::Problem;
pub use rep::Rep;
pub use scratch::Scratch;
pub use slacks::slack;
pub use tree::{Node, Tree};
pub use wire::{wire_delay, wire_delays};
