//! Mode `best`: the best placements of repeaters on nets, the files in which their cells are put, and a certificate.
#![tactic(auto)]

mod best;
mod nets;

pub use best::best_for;
