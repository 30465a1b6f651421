//! Grammars over tokens: what a text of a grammar is, where a text breaks it, and machines that find that place.
//!
//! A theory alone: readers of formats have the code.
#![tactic(auto)]

mod laws;

pub use laws::{break_once, machines_read_grammars};
