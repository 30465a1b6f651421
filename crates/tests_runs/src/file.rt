//! A case file: its cases are run, and what came of them is told.

use crate::case::{Case, Run, Step};
use crate::fault::{Fault, FaultAt};
use crate::read::read_cases;
use crate::report::{found_text, push_difference};
use crate::run::{Found, Given, run_case};
use std::alloc::Global;
use std::fs;
use std::rt::Files;
use vg_store::{MemFiles, RealFiles, read_all};

/// The most bytes that a file moves at once.
const CHUNK: usize = 1 << 16;

/// The files that a base may have.
const BASE_FILES: [&str; 5] = ["a.spef", "l.lib", "v.v", "c.txt", "k.txt"];

/// The options that name files to be written.
const OUTPUTS: [&str; 3] = ["--out-spef", "--out-verilog", "--cert"];

/// Where the files of cases are: in memory, or in the folder where the program runs.
#[derive(Clone, Copy, PartialEq, Eq)]
pub(crate) enum Over {
    Memory,
    Real,
}

/// How many cases and runs there are, and whether all came as said.
#[derive(Clone, Copy)]
pub(crate) struct Sum {
    pub(crate) cases: usize,
    pub(crate) runs: usize,
    pub(crate) is_right: bool,
}

/// The text of the file of this name.
pub(crate) fn text_of<R: Files>(alloc: Global, rt: &R, name: &str) -> Result<String, Fault> {
    let mut files = RealFiles::new(rt, alloc);
    let Ok(bytes) = read_all(alloc, &mut files, name) else {
        return Err(Fault::NoFile);
    };
    match String::from_utf8(bytes) {
        Ok(text) => Ok(text),
        Err(_) => Err(Fault::Mark),
    }
}

/// The files of a base, if there is one.
fn base_files<R: Files>(alloc: Global, rt: &R, base: Option<&str>) -> Result<Vec<Given>, Fault> {
    let mut given = Vec::new(alloc);
    let Some(base) = base else {
        return Ok(given);
    };
    let mut files = RealFiles::new(rt, alloc);
    for name in &BASE_FILES {
        let path = format!(in alloc; "bases/{base}/{name}")?;
        if let Ok(bytes) = read_all(alloc, &mut files, path.as_str()) {
            let name = String::from_str(alloc, name)?;
            given.push(Given { name, bytes })?;
        }
    }
    if given.is_empty() {
        return Err(Fault::NoFile);
    }
    Ok(given)
}

/// The name of a file to be written, where a word behind this one gives it, or this word with an equal sign.
fn output_in<'a>(before: &str, word: &'a str) -> Option<&'a str> {
    if OUTPUTS.iter().any(|option| *option == before) {
        return Some(word);
    }
    let (option, name) = word.split_once('=')?;
    if OUTPUTS.iter().any(|output| *output == option) {
        Some(name)
    } else {
        None
    }
}

/// Takes away the files that a run may have left.
fn remove_outputs<R: Files>(rt: &R, run: &Run) {
    let mut before = "";
    for word in &run.words {
        if let Some(name) = output_in(before, word.as_str()) {
            let _ = fs::remove_file(rt, name);
        }
        before = word.as_str();
    }
}

/// Takes away the files that a case may have left.
fn remove_files<R: Files>(rt: &R, case: &Case<'_>) {
    for name in &BASE_FILES {
        let _ = fs::remove_file(rt, *name);
    }
    for step in &case.steps {
        match step {
            Step::Edit(edit) => {
                let _ = fs::remove_file(rt, edit.file.as_str());
            }
            Step::Run(run) => remove_outputs(rt, run),
        }
    }
}

/// What comes of the runs of a case.
fn found_in_case<R: Files>(
    alloc: Global,
    rt: &R,
    base: &[Given],
    case: &Case<'_>,
    over: Over,
) -> Result<Vec<Found>, FaultAt> {
    match over {
        Over::Memory => {
            let Ok(mut files) = MemFiles::new(alloc, CHUNK, &[]) else {
                return Err(FaultAt {
                    line: case.line,
                    fault: Fault::Memory,
                });
            };
            run_case(alloc, &mut files, base, case)
        }
        Over::Real => {
            let mut files = RealFiles::new(rt, alloc);
            let found = run_case(alloc, &mut files, base, case);
            remove_files(rt, case);
            found
        }
    }
}

/// The files of the base of the last case, which the next one mostly begins with too.
#[derive(Drop)]
struct Base<'a> {
    name: Option<&'a str>,
    files: Vec<Given>,
}

impl<'a> Base<'a> {
    /// That of cases without a base.
    fn none(alloc: Global) -> Base<'a> {
        Base {
            name: None,
            files: Vec::new(alloc),
        }
    }

    /// Becomes the base of a case.
    fn become_of<R: Files>(
        &mut self,
        alloc: Global,
        rt: &R,
        case: &Case<'a>,
    ) -> Result<(), FaultAt> {
        if self.name == case.base {
            return Ok(());
        }
        match base_files(alloc, rt, case.base) {
            Ok(files) => {
                self.name = case.base;
                self.files = files;
                Ok(())
            }
            Err(fault) => Err(FaultAt {
                line: case.line,
                fault,
            }),
        }
    }
}

/// A run of a case file, and what came of it.
#[derive(Drop)]
struct Printed {
    line: usize,
    end: usize,
    text: String,
}

/// The run that a step is.
fn run_of(step: &Step) -> Option<&Run> {
    match step {
        Step::Run(run) => Some(run),
        Step::Edit(_) => None,
    }
}

/// Adds what is not as said of the runs of a case, and whether all are as said.
fn compare_case(
    alloc: Global,
    report: &mut String,
    case: &Case<'_>,
    found: &[Found],
) -> Result<Sum, Fault> {
    let mut sum = Sum {
        cases: 1,
        runs: 0,
        is_right: true,
    };
    for (run, found) in case.steps.iter().filter_map(run_of).zip(found) {
        sum.runs = sum.runs.saturating_add(1);
        if !found.is_as(run) {
            push_difference(alloc, report, case.title, run, found)?;
            sum.is_right = false;
        }
    }
    Ok(sum)
}

/// Runs a case, adds what is not as said, and adds to the sum.
fn take_case<R: Files>(
    alloc: Global,
    rt: &R,
    base: &[Given],
    case: &Case<'_>,
    over: Over,
    report: &mut String,
) -> Result<Sum, FaultAt> {
    let found = found_in_case(alloc, rt, base, case, over)?;
    compare_case(alloc, report, case, &found).map_err(|fault| FaultAt {
        line: case.line,
        fault,
    })
}

impl Sum {
    /// The sum with another.
    pub(crate) fn add(&mut self, other: Sum) {
        self.cases = self.cases.saturating_add(other.cases);
        self.runs = self.runs.saturating_add(other.runs);
        self.is_right = self.is_right && other.is_right;
    }

    /// Of nothing.
    pub(crate) fn none() -> Sum {
        Sum {
            cases: 0,
            runs: 0,
            is_right: true,
        }
    }
}

/// Runs the cases of a text, and adds what is not as said.
fn take_cases<R: Files>(
    alloc: Global,
    rt: &R,
    text: &str,
    over: Over,
    report: &mut String,
) -> Result<Sum, FaultAt> {
    let cases = read_cases(alloc, text)?;
    let mut sum = Sum::none();
    let mut base = Base::none(alloc);
    for case in &cases {
        base.become_of(alloc, rt, case)?;
        sum.add(take_case(alloc, rt, &base.files, case, over, report)?);
    }
    Ok(sum)
}

/// Runs the cases of the case file of this name, and adds what is not as said.
pub(crate) fn take_file<R: Files>(
    alloc: Global,
    rt: &R,
    name: &str,
    over: Over,
    report: &mut String,
) -> Result<Sum, Fault> {
    let path = format!(in alloc; "cases/{name}")?;
    let text = text_of(alloc, rt, path.as_str())?;
    match take_cases(alloc, rt, text.as_str(), over, report) {
        Ok(sum) => Ok(sum),
        Err(FaultAt { line, fault }) => {
            writeln!(report, "  line {line}: {fault}")?;
            let mut sum = Sum::none();
            sum.is_right = false;
            Ok(sum)
        }
    }
}

/// What came of each run of a text.
fn printed_runs<R: Files>(alloc: Global, rt: &R, text: &str) -> Result<Vec<Printed>, FaultAt> {
    let cases = read_cases(alloc, text)?;
    let mut runs = Vec::new(alloc);
    let mut base = Base::none(alloc);
    for case in &cases {
        base.become_of(alloc, rt, case)?;
        let found = found_in_case(alloc, rt, &base.files, case, Over::Memory)?;
        add_printed(alloc, case, &found, &mut runs).map_err(|fault| FaultAt {
            line: case.line,
            fault,
        })?;
    }
    Ok(runs)
}

/// Adds what came of the runs of a case.
fn add_printed(
    alloc: Global,
    case: &Case<'_>,
    found: &[Found],
    runs: &mut Vec<Printed>,
) -> Result<(), Fault> {
    for (run, found) in case.steps.iter().filter_map(run_of).zip(found) {
        let text = found_text(alloc, run, found)?;
        runs.push(Printed {
            line: run.line,
            end: run.end,
            text,
        })?;
    }
    Ok(())
}

/// A text with what came of its runs in the place of what they had to give.
fn with_found(alloc: Global, text: &str, runs: &[Printed]) -> Result<String, Fault> {
    let mut printed = String::new(alloc);
    let mut number = 0usize;
    for line in text.lines() {
        number = number.saturating_add(1);
        if !runs
            .iter()
            .any(|run| run.line < number && number <= run.end)
        {
            printed.push_str(line)?;
            printed.push_str("\n")?;
        }
        if let Some(run) = runs.iter().find(|run| run.line == number) {
            printed.push_str(run.text.as_str())?;
        }
    }
    Ok(printed)
}

/// The case file of this path with what came of its runs in the place of what they had to give.
pub(crate) fn print_file<R: Files>(alloc: Global, rt: &R, path: &str) -> Result<String, Fault> {
    let text = text_of(alloc, rt, path)?;
    match printed_runs(alloc, rt, text.as_str()) {
        Ok(runs) => with_found(alloc, text.as_str(), &runs),
        Err(FaultAt { line, fault }) => Ok(format!(in alloc; "{path} line {line}: {fault}\n")?),
    }
}
