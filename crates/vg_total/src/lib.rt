//! The frontier of cost and slack of several nets.
#![tactic(auto)]

mod laws;
mod pick;
mod sweep;
mod totals;

pub use laws::{empty_where_no_choice, found_points_rise, total_of_frontiers, total_of_nets};
pub use pick::TotalPoint;
pub use totals::total;
