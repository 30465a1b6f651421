//! Laws of candidates: how the pairs at a node of a net come from those at its children, which lists of them bound
//! every placement, and what they are worth at the driver.
#![tactic(auto)]

mod choice;
mod laws;
mod lists;
mod parts;

pub use choice::greatest;
pub use laws::{
    cover_bounds, cover_excludes, cover_holds, exact_lists_cover, joins_decide, pairs_step,
    priced_frontier, priced_step, root_decides, root_pairs, step_is_monotone, step_lists_are_exact,
    valid_shows,
};
pub use lists::{meet_all, raise, sweep, through_wire};
pub use parts::{Classes, join_live};
