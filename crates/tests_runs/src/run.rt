//! Runs a case over files, and finds what comes of its runs.

use crate::case::{Case, Change, Content, Edit, Run, Step, Wanted};
use crate::edit::{
    first_lines, replace_each, replace_once, with_lines, with_lines_behind, without_line,
};
use crate::fault::{Fault, FaultAt};
use std::alloc::Global;
use vg_store::{Files, MemFiles, MemOut, RealFiles, read_all, write_file};
use vginsert_top::run;

/// The most bytes that an output takes at once.
const CHUNK: usize = 1 << 16;

/// A file that a case is given, and what it holds.
#[derive(Drop)]
pub(crate) struct Given {
    pub(crate) name: String,
    pub(crate) bytes: Vec<u8>,
}

/// What a file held after a run, and whether it had to.
#[derive(Drop)]
pub(crate) struct FoundFile {
    pub(crate) bytes: Option<Vec<u8>>,
    pub(crate) is_right: bool,
}

/// What came of a run.
#[derive(Drop)]
pub(crate) struct Found {
    pub(crate) status: u8,
    pub(crate) printed: Vec<u8>,
    pub(crate) told: Vec<u8>,
    /// Of each file that had to hold something, in the order of the case file.
    pub(crate) files: Vec<FoundFile>,
    /// Given files that were changed, where nothing says so.
    pub(crate) lost: Vec<String>,
}

impl Found {
    /// Whether all that a run had to give came of it.
    pub(crate) fn is_as(&self, run: &Run) -> bool {
        self.status == run.status
            && self.printed.as_slice() == run.printed.as_slice()
            && self.told.as_slice() == run.told.as_slice()
            && self.files.iter().all(|file| file.is_right)
            && self.lost.is_empty()
    }
}

/// Files that tell what they hold.
pub(crate) trait Held {
    /// What the file of this name holds; none where there is no such file.
    fn held(&mut self, alloc: Global, name: &str) -> Result<Option<Vec<u8>>, Fault>;
}

impl Held for MemFiles {
    fn held(&mut self, alloc: Global, name: &str) -> Result<Option<Vec<u8>>, Fault> {
        match self.get(name) {
            Some(bytes) => Ok(Some(Vec::from_slice(alloc, bytes)?)),
            None => Ok(None),
        }
    }
}

impl<R: std::rt::Files> Held for RealFiles<'_, R> {
    fn held(&mut self, alloc: Global, name: &str) -> Result<Option<Vec<u8>>, Fault> {
        match read_all(alloc, self, name) {
            Ok(bytes) => Ok(Some(bytes)),
            Err(_) => Ok(None),
        }
    }
}

/// What the file of this name holds.
fn content<F: Files + Held>(alloc: Global, files: &mut F, name: &str) -> Result<Vec<u8>, Fault> {
    match files.held(alloc, name)? {
        Some(bytes) => Ok(bytes),
        None => Err(Fault::NoFile),
    }
}

/// What a file holds with this change.
fn changed<F: Files + Held>(alloc: Global, files: &mut F, edit: &Edit) -> Result<Vec<u8>, Fault> {
    match &edit.change {
        Change::Text(text) => return Ok(Vec::from_slice(alloc, text)?),
        Change::Like(other) => return content(alloc, files, other.as_str()),
        _ => {}
    }
    let text = content(alloc, files, edit.file.as_str())?;
    match &edit.change {
        Change::Once(old, new) => replace_once(alloc, &text, old, new),
        Change::Each(old, new) => replace_each(alloc, &text, old, new),
        Change::Without(number) => without_line(alloc, &text, *number),
        Change::With(number, lines) => with_lines(alloc, &text, *number, lines),
        Change::Behind(lines) => with_lines_behind(alloc, &text, lines),
        Change::First(count) => first_lines(alloc, &text, *count),
        Change::Text(_) | Change::Like(_) => Ok(text),
    }
}

/// Puts a file there, and keeps what it holds.
fn give<F: Files + Held>(
    alloc: Global,
    files: &mut F,
    given: &mut Vec<Given>,
    name: &str,
    bytes: Vec<u8>,
) -> Result<(), Fault> {
    if write_file(files, name, &bytes).is_err() {
        return Err(Fault::Unwritten);
    }
    given.retain(|file| file.name.as_str() != name);
    let name = String::from_str(alloc, name)?;
    given.push(Given { name, bytes })?;
    Ok(())
}

/// What a file holds after a run, beside what it has to hold.
fn found_file<F: Files + Held>(
    alloc: Global,
    files: &mut F,
    wanted: &Wanted,
) -> Result<FoundFile, Fault> {
    let bytes = files.held(alloc, wanted.file.as_str())?;
    let is_right = match &wanted.content {
        Content::Text(text) => bytes
            .as_ref()
            .is_some_and(|bytes| bytes.as_slice() == text.as_slice()),
        Content::Like(other) => {
            let other = content(alloc, files, other.as_str())?;
            bytes
                .as_ref()
                .is_some_and(|bytes| bytes.as_slice() == other.as_slice())
        }
        Content::Absent => bytes.is_none(),
    };
    Ok(FoundFile { bytes, is_right })
}

/// Whether a run says what a file of this name has to hold.
fn names(run: &Run, name: &str) -> bool {
    run.files.iter().any(|wanted| wanted.file.as_str() == name)
}

/// The given files that hold something else now, where the run does not say what.
fn lost_files<F: Files + Held>(
    alloc: Global,
    files: &mut F,
    given: &[Given],
) -> Result<Vec<String>, Fault> {
    let mut lost = Vec::new(alloc);
    for file in given {
        let bytes = files.held(alloc, file.name.as_str())?;
        if !bytes.is_some_and(|bytes| bytes.as_slice() == file.bytes.as_slice()) {
            lost.push(file.name.clone()?)?;
        }
    }
    Ok(lost)
}

/// Runs the program, and finds what comes of it.
fn run_program<F: Files + Held>(
    alloc: Global,
    files: &mut F,
    given: &mut Vec<Given>,
    wanted: &Run,
) -> Result<Found, Fault> {
    let mut out = MemOut::new(alloc, CHUNK, &[])?;
    let mut err = MemOut::new(alloc, CHUNK, &[])?;
    let status = run(alloc, &wanted.words, files, &mut out, &mut err);
    given.retain(|file| !names(wanted, file.name.as_str()));
    let lost = lost_files(alloc, files, given)?;
    let mut held = Vec::new(alloc);
    for file in &wanted.files {
        held.push(found_file(alloc, files, file)?)?;
    }
    Ok(Found {
        status,
        printed: Vec::from_slice(alloc, out.as_bytes())?,
        told: Vec::from_slice(alloc, err.as_bytes())?,
        files: held,
        lost,
    })
}

/// Does the next step of a case, and adds what came of it if it is a run.
fn take_step<F: Files + Held>(
    alloc: Global,
    files: &mut F,
    given: &mut Vec<Given>,
    step: &Step,
    all: &mut Vec<Found>,
) -> Result<(), FaultAt> {
    let (line, done) = match step {
        Step::Edit(edit) => (edit.line, make_edit(alloc, files, given, edit)),
        Step::Run(run) => (run.line, add_found(alloc, files, given, run, all)),
    };
    match done {
        Ok(()) => Ok(()),
        Err(fault) => Err(FaultAt { line, fault }),
    }
}

/// Changes a file.
fn make_edit<F: Files + Held>(
    alloc: Global,
    files: &mut F,
    given: &mut Vec<Given>,
    edit: &Edit,
) -> Result<(), Fault> {
    let bytes = changed(alloc, files, edit)?;
    give(alloc, files, given, edit.file.as_str(), bytes)
}

/// Adds what comes of a run.
fn add_found<F: Files + Held>(
    alloc: Global,
    files: &mut F,
    given: &mut Vec<Given>,
    run: &Run,
    all: &mut Vec<Found>,
) -> Result<(), Fault> {
    all.push(run_program(alloc, files, given, run)?)?;
    Ok(())
}

/// What comes of the runs of a case, in their order, where it begins with these files.
pub(crate) fn run_case<F: Files + Held>(
    alloc: Global,
    files: &mut F,
    base: &[Given],
    case: &Case<'_>,
) -> Result<Vec<Found>, FaultAt> {
    let mut given = Vec::new(alloc);
    for file in base {
        give_base(alloc, files, &mut given, file).map_err(|fault| FaultAt {
            line: case.line,
            fault,
        })?;
    }
    let mut all = Vec::new(alloc);
    for step in &case.steps {
        take_step(alloc, files, &mut given, step, &mut all)?;
    }
    Ok(all)
}

/// Puts a file of the base there.
fn give_base<F: Files + Held>(
    alloc: Global,
    files: &mut F,
    given: &mut Vec<Given>,
    file: &Given,
) -> Result<(), Fault> {
    let bytes = Vec::from_slice(alloc, &file.bytes)?;
    give(alloc, files, given, file.name.as_str(), bytes)
}
