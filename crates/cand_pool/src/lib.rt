//! Lists of candidates of required time and load, linked inside one block of slots.
#![tactic(auto)]

mod absorb;
mod ends;
mod join_pair;
mod laws;
mod lists;
mod load;
mod moves;
mod numbers;
mod places;
mod pool;
mod sieve;
mod steps;
mod wire;

pub use ends::{Bag, Cand, List};
pub use join_pair::Taken;
pub use laws::{kept_covers, union_undominated};
pub use pool::Pool;
pub use steps::Steps;
