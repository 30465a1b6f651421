//! Nets with a placement each, one after another: what is said of them, and the texts of their design with their cells.
#![tactic(auto)]

mod judged;
mod judging;

pub use judged::Judged;
pub use judging::{Judging, patches_of, put_cells};
