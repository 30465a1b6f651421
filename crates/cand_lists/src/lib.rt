//! Lists of candidates whose dominated ones are given up with the uses of their solutions, and what that leaves in the
//! words of the laws.
#![tactic(auto)]

mod laws;
mod moves;

pub use laws::{both_are_exact, load_is_exact, wire_is_exact};
pub use moves::{absorb, wire};
