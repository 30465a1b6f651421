//! The top call of `vginsert`: from the words of the command line to the bytes that are written.
#![tactic(auto)]

mod top;

pub use top::run;
