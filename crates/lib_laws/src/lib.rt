//! Laws of the text of a Liberty library: where its statements stand, what joined lines change, and what the grammar
//! says of the names of its repeaters.
//!
//! Theory alone: the definitions and the code are those of `lib_text`, `lib_cells` and `lib_linear`.
#![tactic(auto)]

mod laws;
mod name_laws;

pub use laws::{
    found_inside, group_is_inside, groups_inside, joined_by_place, names_are_own, plain_stays,
    statements_in_order,
};
pub use name_laws::names_can_be_words;
