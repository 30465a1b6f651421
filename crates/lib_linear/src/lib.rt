//! Liberty libraries of the linear delay model: from a text to its cells and to those of them that are repeaters, or to
//! its first fault.
#![tactic(auto)]

mod checked;
mod laws;
mod library;
mod order;
mod read;
mod repeater;
mod repeater_laws;
mod repeater_search;

pub use checked::checked_text;
pub use laws::one_answer;
pub use library::{
    Library, pin_cap, pin_drive, pin_limit, related, repeaters, repeaters_are_of_cells,
};
pub use read::read_library;
pub use repeater::Repeater;
pub use repeater_laws::{
    none_twice, not_over, one_library, one_list, one_order, one_place, one_repeater,
};
