//! Repeaters at a node, each of which drives the candidate that gives it the most time. A few repeaters are tried on
//! each candidate (van Ginneken 1990); where there are more, each finds its candidate on the upper convex hull of them
//! all (Li and Shi 2005).
#![tactic(auto)]

mod cells;
mod drive;
mod hull;
mod laws;
mod scan;
mod search;
mod shelf;
mod sweep;
mod work;

pub use cells::{add_cells, find_each, list_of};
pub use laws::{
    greatest_turns, hull_serves, pair_comes_off, pair_goes_on, peak_is_greatest, values_fall,
};
pub use shelf::Shelf;
pub use work::{Kept, Made, Work};
