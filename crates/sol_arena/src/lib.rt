//! Shared solutions: sets of cells, each made of one or two others, with counted uses.
//!
//! A search makes millions of partial solutions, and most of them share nearly all of their cells. So a solution has at
//! most one cell of its own and shares the others. It lives as long as it has a use: one that a caller holds, or one of
//! a solution that was made of it. Then its slot serves the next one.
#![tactic(auto)]

mod arena;
mod laws;
mod make;
mod release;
mod slot;

pub use arena::{Arena, Sol};
pub use laws::{live_is_reached, same_uses_restore};
