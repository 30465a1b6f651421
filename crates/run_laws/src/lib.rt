//! What follows of a run of the program, a theory alone.
#![tactic(auto)]

mod laws;

pub use laws::{
    certificates_are_written, valid_certificates_are_best, written_certificates_check,
    written_files_retime,
};
