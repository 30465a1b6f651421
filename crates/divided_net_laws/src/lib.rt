//! Nets whose resistors are divided into equal parts, as numbered nodes, capacitors and resistors, and their trees.
//!
//! A theory alone: what cuts the wires of a net is to stand on it.
#![tactic(auto)]

mod laws;

pub use laws::{
    divided_nets_have_divided_trees, divided_nets_have_trees, renumbered_nets_are_divided,
};
