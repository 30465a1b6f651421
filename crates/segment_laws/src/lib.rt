//! Texts of parasitics in which the resistors of nets are cut into parts: how they are read, and what becomes of the
//! nets' wire delays, slacks and placements.
//!
//! A theory alone, over `vg_segment`.
#![tactic(auto)]

mod laws;

pub use laws::{cut_nets_are_no_worse, cut_sections_are_read};
