//! What lists of candidates hold of an arena of solutions: the tag of a candidate is its solution, of which its list
//! holds a use.
#![tactic(auto)]

mod bags;

pub use bags::{end_list, give_up};
