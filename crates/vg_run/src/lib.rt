//! A request: its inputs are read in order, its mode answers, drafts of the answer's files are made and then published
//! in order, and the answer is printed.
#![tactic(auto)]

mod inputs;
mod modes;
mod outcome;
mod outputs;
mod publish;
mod request;
mod tell;
mod write;

pub use inputs::{Flaw, Texts, read_inputs};
pub use outcome::Outcome;
pub use request::{fault_status, run_request};
pub use tell::tell_words;
pub use write::draft_text;
