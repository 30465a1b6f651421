//! Names that stand in one buffer, numbered, and found by their hashes.
#![tactic(auto)]

mod chains;
mod hash;
mod names;
mod ordered_rows;
mod rows;
mod same;
mod texts;

pub use chains::{Chains, Link};
pub use names::Names;
pub use ordered_rows::OrderedRows;
pub use same::is_same;
pub use texts::Texts;
