//! The case files that are listed, and those that the words name.

use crate::fault::Fault;
use crate::file::{Over, Sum, print_file, take_file, text_of};
use std::alloc::Global;
use std::rt::Files;
use std::{fs, io};

/// What is printed, and whether all came as said.
#[derive(Drop)]
pub(crate) struct Answer {
    pub(crate) text: String,
    pub(crate) all_right: bool,
}

/// The list of case files: each line has the name of one, and the word `real` where its cases are run over real files
/// too.
const INDEX: &str = "INDEX";

/// The name in a line of the list, and whether its cases are run over real files too.
fn listed(line: &str) -> (&str, bool) {
    match line.strip_suffix(" real") {
        Some(name) => (name, true),
        None => (line, false),
    }
}

/// Runs a case file over files in memory, and over real ones where that is asked for.
fn take_both<R: Files>(
    alloc: Global,
    rt: &R,
    name: &str,
    is_real: bool,
    text: &mut String,
) -> Result<Sum, Fault> {
    let mut report = String::new(alloc);
    let mut sum = take_file(alloc, rt, name, Over::Memory, &mut report)?;
    if is_real {
        let real = take_file(alloc, rt, name, Over::Real, &mut report)?;
        sum.is_right = sum.is_right && real.is_right;
    }
    let also = if is_real { ", over real files too" } else { "" };
    writeln!(text, "{name}: {} runs{also}", sum.runs)?;
    text.push_str(report.as_str())?;
    Ok(sum)
}

/// Runs a listed case file, and adds to the sum.
fn take_listed<R: Files>(
    alloc: Global,
    rt: &R,
    line: &str,
    answer: &mut Answer,
) -> Result<Sum, Fault> {
    let (name, is_real) = listed(line);
    match take_both(alloc, rt, name, is_real, &mut answer.text) {
        Ok(sum) => Ok(sum),
        Err(fault) => {
            writeln!(answer.text, "{name}: {fault}")?;
            answer.all_right = false;
            Ok(Sum::none())
        }
    }
}

/// Runs the case files of these lines.
fn take_lines<R: Files>(alloc: Global, rt: &R, lines: &str) -> Result<Answer, Fault> {
    let mut answer = Answer {
        text: String::new(alloc),
        all_right: true,
    };
    let mut sum = Sum::none();
    let mut files = 0usize;
    for line in lines.lines() {
        sum.add(take_listed(alloc, rt, line, &mut answer)?);
        files = files.saturating_add(1);
    }
    writeln!(
        answer.text,
        "{files} case files, {} cases, {} runs",
        sum.cases, sum.runs
    )?;
    answer.all_right = answer.all_right && sum.is_right;
    Ok(answer)
}

/// Adds the names of the case files of a group that are not listed.
fn add_unlisted<R: Files + AllocGlobal + Clone + Drop>(
    rt: &R,
    group: &str,
    index: &str,
    text: &mut String,
) -> io::Result<()> {
    let alloc = rt.alloc();
    let folder = format!(in alloc; "cases/{group}")?;
    for entry in fs::read_dir(rt, folder.as_str())? {
        let entry = entry?;
        let name = format!(in alloc; "{group}/{}", entry.file_name())?;
        if !index.lines().any(|line| listed(line).0 == name.as_str()) {
            writeln!(text, "{name}: not in INDEX")?;
        }
    }
    Ok(())
}

/// A line for each case file that is not listed.
fn unlisted<R: Files + AllocGlobal + Clone + Drop>(rt: &R, index: &str) -> io::Result<String> {
    let mut text = String::new(rt.alloc());
    for group in fs::read_dir(rt, "cases")? {
        let group = group?;
        add_unlisted(rt, group.file_name(), index, &mut text)?;
    }
    Ok(text)
}

/// Runs all case files that are listed.
fn take_all<R: Files + AllocGlobal + Clone + Drop>(rt: &R) -> Result<Answer, Fault> {
    let alloc = rt.alloc();
    let index = text_of(alloc, rt, INDEX)?;
    let mut answer = take_lines(alloc, rt, index.as_str())?;
    let Ok(missing) = unlisted(rt, index.as_str()) else {
        return Err(Fault::NoFile);
    };
    answer.text.push_str(missing.as_str())?;
    answer.all_right = answer.all_right && missing.is_empty();
    Ok(answer)
}

/// Runs the case files of these names.
fn take_some<R: Files>(alloc: Global, rt: &R, names: &[String]) -> Result<Answer, Fault> {
    let mut lines = String::new(alloc);
    for name in names {
        lines.push_str(name.as_str())?;
        lines.push_str("\n")?;
    }
    take_lines(alloc, rt, lines.as_str())
}

/// Does what the words ask for.
pub(crate) fn answer_to<R: Files + AllocGlobal + Clone + Drop>(
    rt: &R,
    words: &[String],
) -> Result<Answer, Fault> {
    let alloc = rt.alloc();
    match words {
        [] => take_all(rt),
        [flag, path] if flag.as_str() == "--print" => Ok(Answer {
            text: print_file(alloc, rt, path.as_str())?,
            all_right: true,
        }),
        names => take_some(alloc, rt, names),
    }
}
