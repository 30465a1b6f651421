//! The words of the command line: what they ask for, or the first reason why they ask for nothing.
#![tactic(auto)]

mod ask;
mod cap;
mod command;
mod count;
mod given;
mod judge;
mod laws;
mod option;
mod target;

pub use ask::{Ask, Mode, WordFault};
pub use judge::read_words;
pub use laws::{
    caps_are_read, certs_are_of_one_net, files_differ, one_or_all, one_request, outputs_are_paired,
    parts_are_few, sizes_are_small, targets_are_read,
};
pub use option::{Opt, options};
