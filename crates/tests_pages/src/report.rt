//! Whether the program prints what pages show.

use crate::page::{Shown, runs_of};
use std::alloc::{AllocError, Global};
use vg_num::Memory;
use vg_scan::text_at;
use vg_store::{Files, MemFiles, MemOut, read_all};
use vginsert_top::run;

/// The most bytes that an output takes at once.
const CHUNK: usize = 1 << 16;

/// The files of these names, as far as they can be read, in memory: what runs write goes there.
pub(crate) fn copy_files<F: Files>(
    alloc: Global,
    real: &mut F,
    lists: &[&[&str]],
) -> Result<MemFiles, Memory> {
    let mut files = MemFiles::new(alloc, CHUNK, &[])?;
    for names in lists {
        for name in *names {
            if let Ok(bytes) = read_all(alloc, real, name) {
                files.add(name, &bytes)?;
            }
        }
    }
    Ok(files)
}

/// The words of a command, parted at blanks and without their quotes.
pub(crate) fn words_of(alloc: Global, command: &[u8]) -> Result<Vec<String>, AllocError> {
    let command = String::from_utf8_lossy(alloc, command)?;
    let mut words = Vec::new(alloc);
    for word in command.as_str().split_whitespace() {
        words.push(word.replace(alloc, "'", "")?)?;
    }
    Ok(words)
}

/// Whether a run prints, to standard output and then to standard error, what the page shows.
fn is_as_shown<F: Files>(
    alloc: Global,
    files: &mut F,
    page: &[u8],
    shown: &Shown,
) -> Result<bool, Memory> {
    let words = words_of(alloc, text_at(page, shown.words))?;
    let mut out = MemOut::new(alloc, CHUNK, &[])?;
    let mut err = MemOut::new(alloc, CHUNK, &[])?;
    run(alloc, &words, files, &mut out, &mut err);
    match text_at(page, shown.output).strip_prefix(out.as_bytes()) {
        Some(rest) => Ok(rest == err.as_bytes()),
        None => Ok(false),
    }
}

/// Tells how the runs of a page are, and whether all are as shown.
fn report_page<F: Files>(
    alloc: Global,
    files: &mut F,
    name: &str,
    report: &mut String,
) -> Result<bool, Memory> {
    let page = match read_all(alloc, files, name) {
        Ok(page) => page,
        Err(fault) => {
            writeln!(report, "{name}: {fault}")?;
            return Ok(false);
        }
    };
    let runs = runs_of(alloc, &page)?;
    let mut all = true;
    for shown in &runs {
        if !is_as_shown(alloc, files, &page, shown)? {
            writeln!(report, "{name} line {}: not as shown", shown.line)?;
            all = false;
        }
    }
    if all {
        writeln!(report, "{name}: {} runs as shown", runs.len())?;
    }
    Ok(all)
}

/// Tells how the runs of these pages are, and whether all are as shown.
pub(crate) fn report_pages<F: Files>(
    alloc: Global,
    files: &mut F,
    names: &[&str],
    report: &mut String,
) -> Result<bool, Memory> {
    let mut all = true;
    for name in names {
        if !report_page(alloc, files, name, report)? {
            all = false;
        }
    }
    Ok(all)
}
