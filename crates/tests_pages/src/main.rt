//! Compares the runs that pages show with what the program prints, the options that the manual page lists with those of
//! the program, and the slacks of a design with those of the files that are written, checks its certificates, and tries
//! outputs that cannot be written.
#![tactic(auto)]

mod design;
mod manual;
mod page;
mod report;
mod unwritable;

use crate::design::report_design;
use crate::manual::report_manual;
use crate::report::{copy_files, report_pages};
use crate::unwritable::report_unwritable;
use std::process::ExitCode;
use vg_store::RealFiles;

/// The pages, by their paths.
const PAGES: [&str; 4] = [
    "README.md",
    "docs/TUTORIAL.md",
    "docs/CERTIFICATES.md",
    "examples/README.md",
];

/// The manual page.
const MANUAL: &str = "docs/vginsert.1";

/// The files that the runs on the pages read.
const EXAMPLES: [&str; 16] = [
    "examples/acc3.cert",
    "examples/acc3_broken.cert",
    "examples/cells.lib",
    "examples/extracted.spef",
    "examples/fork.spef",
    "examples/small.cert",
    "examples/small.cons",
    "examples/small.lib",
    "examples/small.spef",
    "examples/small.v",
    "examples/soc.cons",
    "examples/soc.lib",
    "examples/soc.spef",
    "examples/soc.v",
    "examples/soc.widths",
    "examples/tables.lib",
];

fn main(rt: HostRuntime) -> ExitCode {
    let mut real = RealFiles::new(&rt, rt.alloc());
    let Ok(mut files) = copy_files(rt.alloc(), &mut real, &[&PAGES, &EXAMPLES]) else {
        return ExitCode::FAILURE;
    };
    let mut report = String::new(rt.alloc());
    let compared = report_pages(rt.alloc(), &mut files, &PAGES, &mut report);
    let listed = report_manual(rt.alloc(), &mut real, MANUAL, &mut report);
    let retimed = report_design(rt.alloc(), &mut files, &mut report);
    let refused = report_unwritable(rt.alloc(), &mut real, &mut report);
    let printed = rt.print(report.as_str());
    let all = [compared, listed, retimed, refused];
    if all.iter().all(|each| matches!(each, Ok(true))) && printed.is_ok() {
        ExitCode::SUCCESS
    } else {
        ExitCode::FAILURE
    }
}
