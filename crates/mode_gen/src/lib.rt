//! Mode `gen`: the summary of a made-up design.
#![tactic(auto)]

mod summary;

pub use summary::gen_for;
