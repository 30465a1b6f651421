//! The frontier of cost and slack of a net (Lillis, Cheng and Lin 1996).
#![tactic(auto)]

mod branch;
mod cells;
mod climb;
mod close;
mod front;
mod join;
mod list;
mod make;
mod meet;
mod offer;
mod part;
mod place;
mod propose;
mod root;
mod runs;
mod stairs;
mod tries;
mod turns;

pub use front::{frontier, frontier_in};
pub use root::Point;
