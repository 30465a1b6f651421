//! Made-up designs of a given size: one net, and the library, the netlist and the constraints that go with it.
#![tactic(auto)]

mod constraints;
mod design;
mod laws;
mod library;
mod line;
mod name;
mod net;
mod netlist;
mod random;
mod spef;

pub use design::{Generated, generate};
pub use laws::{lines_are_numbered, texts_are_short, values_are_small};
