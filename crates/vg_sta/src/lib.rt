//! The timing of a whole design: how much slack is left on all paths from its first drivers through nets and cells to
//! its last sinks, and on the paths through each net.
//!
//! Times are whole zeptoseconds (zs).
#![tactic(auto)]

mod answer;
mod build;
mod delays;
mod laws;
mod leads;
mod outputs;
mod sections;
mod timing;

pub use answer::{Sta, StaFault, StaNet};
pub use laws::timed_or_fault;
pub use timing::sta;
