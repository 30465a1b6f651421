//! Where two branches of a net meet: the list of what their candidates make together, with their solutions.
#![tactic(auto)]

mod branches;

pub use branches::merge;
