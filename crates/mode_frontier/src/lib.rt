//! Mode `frontier`: the frontiers of cost and slack of nets.
#![tactic(auto)]

mod front;

pub use front::front_for;
