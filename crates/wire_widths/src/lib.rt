//! Wires that may be made wider: what a width makes of a wire, and of loads, delays, slack and pairs.
#![tactic(auto)]

mod laws;
mod width;
mod widths;

pub use laws::{
    plain_is_without, wide_cover_excludes, wide_cover_holds, wide_is_no_worse, wide_pairs_step,
    wide_root_decides, widths_are_elmore,
};
pub use width::{PLAIN, Width};
pub use widths::Widths;
