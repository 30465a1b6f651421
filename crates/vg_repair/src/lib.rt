//! The repair of a net: the cheapest placement of repeaters with slack enough.
#![tactic(auto)]

mod bare;
mod laws;
mod pick;
mod repair;
mod search;

pub use laws::{far_target_is_best, one_repair, repairs_are_good};
pub use repair::repaired;
