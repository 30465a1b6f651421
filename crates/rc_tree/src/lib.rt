//! Nets of resistors and capacitors as trees, breadth first from the root.
//!
//! Resistances are whole milliohms (mΩ), capacitances whole attofarads (aF).
#![tactic(auto)]

mod caps;
mod fault;
mod laws;
mod links;
mod net;
mod search;

pub use fault::TreeFault;
pub use laws::one_tree;
pub use net::{Built, build};
