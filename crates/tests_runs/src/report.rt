//! What is told of case files: a line for each, what was found where a run is not as said, and case files with what was
//! found.

use crate::case::{Content, Run, Wanted};
use crate::fault::Fault;
use crate::run::{Found, FoundFile};
use std::alloc::Global;

/// Whether a text can stand in a case file as lines up to a line `.`.
fn is_plain(text: &str) -> bool {
    !text.is_empty()
        && !text.contains('\r')
        && text
            .lines()
            .all(|line| line != "." && line != ". no line end")
}

/// Adds a byte of a text in quotes.
fn push_quoted(text: &mut String, byte: u8) -> Result<(), Fault> {
    match byte {
        b'\n' => text.push_str("\\n")?,
        b'\t' => text.push_str("\\t")?,
        b'\r' => text.push_str("\\r")?,
        b'"' => text.push_str("\\\"")?,
        b'\\' => text.push_str("\\\\")?,
        b' '..=b'~' => text.push(char::from(byte))?,
        _ => write!(text, "\\x{byte:02x}")?,
    }
    Ok(())
}

/// Adds what a file holds, as lines or in quotes.
fn push_text(report: &mut String, name: &str, bytes: &[u8]) -> Result<(), Fault> {
    if let Ok(text) = str::from_utf8(bytes)
        && is_plain(text)
    {
        writeln!(report, "> {name}")?;
        report.push_str(text)?;
        report.push_str(if text.ends_with('\n') {
            ".\n"
        } else {
            "\n. no line end\n"
        })?;
        return Ok(());
    }
    write!(report, "> {name} = \"")?;
    for byte in bytes {
        push_quoted(report, *byte)?;
    }
    report.push_str("\"\n")?;
    Ok(())
}

/// Adds what a file held after a run.
fn push_file(report: &mut String, wanted: &Wanted, found: &FoundFile) -> Result<(), Fault> {
    let name = wanted.file.as_str();
    match (&wanted.content, &found.bytes) {
        (Content::Like(other), Some(_)) if found.is_right => {
            writeln!(report, "> {name} = {}", other.as_str())?;
        }
        (_, Some(bytes)) => push_text(report, name, bytes)?,
        (_, None) => writeln!(report, "> {name} absent")?,
    }
    Ok(())
}

/// Adds the lines of a text, each behind a mark.
fn push_lines(report: &mut String, mark: &str, text: &str) -> Result<(), Fault> {
    for line in text.lines() {
        report.push_str(mark)?;
        report.push_str(line)?;
        report.push_str("\n")?;
    }
    Ok(())
}

/// What came of a run, as a case file says it.
pub(crate) fn found_text(alloc: Global, run: &Run, found: &Found) -> Result<String, Fault> {
    let mut report = String::new(alloc);
    let printed = String::from_utf8_lossy(alloc, &found.printed)?;
    let told = String::from_utf8_lossy(alloc, &found.told)?;
    push_lines(&mut report, "", printed.as_str())?;
    if found.status != 0 {
        writeln!(report, "? {}", found.status)?;
    }
    push_lines(&mut report, "! ", told.as_str())?;
    for (wanted, file) in run.files.iter().zip(&found.files) {
        push_file(&mut report, wanted, file)?;
    }
    Ok(report)
}

/// Adds what is not as said of a run.
pub(crate) fn push_difference(
    alloc: Global,
    report: &mut String,
    title: &str,
    run: &Run,
    found: &Found,
) -> Result<(), Fault> {
    writeln!(report, "  line {}: not as said: {title}", run.line)?;
    for name in &found.lost {
        writeln!(report, "    {} was changed", name.as_str())?;
    }
    let text = found_text(alloc, run, found)?;
    push_lines(report, "    ", text.as_str())
}
