//! Mode `check`: whether a certificate of a net is valid, whoever made it.
#![tactic(auto)]

mod check;

pub use check::check_for;
