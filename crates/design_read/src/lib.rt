//! The four files of a design, read in order.
#![tactic(auto)]

mod design_fault;
mod laws;
mod read;

pub use design_fault::DesignFault;
pub use laws::one_design;
pub use read::read_design;
