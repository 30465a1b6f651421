//! The module that a structural Verilog netlist denotes: its nets, its instances, and their connections.
#![tactic(auto)]

mod build;
mod check;
mod first;
mod identifier;
mod laws;
mod nets;
mod read;
mod scope;
mod uses;

pub use laws::{links_are_own, nets_have_their_names, texts_are_read_in_one_way};
pub use read::read_module;
