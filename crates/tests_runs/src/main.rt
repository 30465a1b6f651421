//! Runs the cases of `data/cases`, which `data/FORMAT.md` describes, and tells which are not as said.
//!
//! With no words it runs the case files that `INDEX` lists; with the names of case files these alone; and with
//! `--print` and the name of one it prints that with what was found.
#![tactic(auto)]

mod case;
mod edit;
mod fault;
mod file;
mod mark;
mod read;
mod report;
mod run;
mod suite;
mod word;
mod words;

use crate::suite::{Answer, answer_to};
use std::alloc::AllocError;
use std::env;
use std::process::ExitCode;

fn main(rt: HostRuntime) -> ExitCode {
    let Ok(args) = env::args(&rt) else {
        return ExitCode::FAILURE;
    };
    // The first word is the program's own name.
    let words: Result<Vec<String>, AllocError> = args.skip(1).collect(rt.alloc());
    let Ok(words) = words else {
        return ExitCode::FAILURE;
    };
    let Ok(Answer { text, all_right }) = answer_to(&rt, &words) else {
        return ExitCode::FAILURE;
    };
    if rt.print(text.as_str()).is_ok() && all_right {
        ExitCode::SUCCESS
    } else {
        ExitCode::FAILURE
    }
}
