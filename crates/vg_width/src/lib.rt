//! Wires of several widths: the text that lists the widths, whether the loads of a net stay within their limit with
//! them, and the slack of a placement whose wires have them.
//!
//! ```text
//! vgwidth 1
//! width 1 1 0              the first width leaves a wire as it is
//! width NUM DEN ADD        NUM / DEN of the resistance, and ADD aF more for each ohm; at most seven of these
//! ```
//!
//! J. Lillis, C.-K. Cheng, T.-T. Y. Lin, "Optimal wire sizing and buffer insertion for low power and a generalized
//! delay model", IEEE Journal of Solid-State Circuits 31, 1996.
#![tactic(auto)]

mod delays;
mod fault;
mod limits;
mod line;
mod loads;
mod read;
mod scratch;
mod search;
mod slack;
mod wide;

pub use fault::{WidthFault, WidthKind};
pub use limits::fits;
pub use read::read_widths;
pub use scratch::WideScratch;
pub use search::wide_best;
pub use slack::width_slack;
pub use wide::WideBest;
pub use wire_widths::{Width, Widths};
