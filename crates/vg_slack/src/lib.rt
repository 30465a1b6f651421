//! The best placement of repeaters on a net.
#![tactic(auto)]

mod answer;
mod choices;
mod climb;
mod lists;
mod room;
mod root;
mod search;
mod waiting;

pub use answer::{Answer, Best};
pub use choices::Choices;
pub use lists::{Lists, NodeLists};
pub use room::Room;
pub use search::{best, best_choices, best_in};
