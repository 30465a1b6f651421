//! A check of certificates, whoever made them. It shares no code with the search that makes them.
#![tactic(auto)]

mod bound;
mod climb;
mod cover;
mod hull;
mod judge;
mod laws;
mod order;
mod part;
mod placed;
mod verdict;

pub use judge::check;
pub use laws::one_verdict;
pub use verdict::Verdict;
