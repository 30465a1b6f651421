//! Texts of which parts are replaced, while all other bytes stay; comments that are taken out of a text, and later put
//! back in place.
#![tactic(auto)]

mod kept;
mod laws;
mod patch;
mod patched;
mod take;

pub use kept::KeptComments;
pub use laws::{kept_parts_stay, patches_are_split};
pub use patch::Patch;
pub use patched::{Patched, Pieces};
pub use take::take_comments;
