//! What a line of a case file says, by its mark.

use crate::fault::Fault;
use crate::word::{Word, words_of};
use std::alloc::Global;

/// A line of a case file.
#[derive(Drop)]
pub(crate) enum Mark<'a> {
    /// A comment, or an empty line.
    Comment,
    /// The name of the base of the cases below.
    Base(&'a str),
    /// A case begins.
    Case(&'a str),
    /// A change of a file.
    Edit(Vec<Word>),
    /// A run in a mode, with words that may be put in.
    Run(Vec<Word>),
    /// A run with these words alone.
    Words(Vec<Word>),
    /// The status of the run.
    Status(u8),
    /// A line of standard error.
    Told(&'a str),
    /// What a file holds after the run.
    File(Vec<Word>),
    /// A line of standard output.
    Printed(&'a str),
}

/// The number that a text is.
pub(crate) fn number_of(text: &str) -> Result<usize, Fault> {
    match text.parse::<usize>() {
        Ok(number) => Ok(number),
        Err(_) => Err(Fault::Number),
    }
}

/// The status that a text is.
fn status_of(text: &str) -> Result<u8, Fault> {
    match text.parse::<u8>() {
        Ok(status) => Ok(status),
        Err(_) => Err(Fault::Number),
    }
}

/// Whether a line may be one of standard output: the lines that the program prints begin with a small letter.
fn is_printed(line: &str) -> bool {
    line.bytes()
        .next()
        .is_some_and(|byte| byte.is_ascii_lowercase())
}

/// The mark of a line that begins with a sign, and what stands behind it.
fn sign_of<'a>(alloc: Global, sign: &str, rest: &'a str) -> Result<Mark<'a>, Fault> {
    match sign {
        "==" => Ok(Mark::Case(rest)),
        "@" => Ok(Mark::Edit(words_of(alloc, rest)?)),
        "$" => Ok(Mark::Run(words_of(alloc, rest)?)),
        "$!" => Ok(Mark::Words(words_of(alloc, rest)?)),
        "?" => Ok(Mark::Status(status_of(rest)?)),
        "!" => Ok(Mark::Told(rest)),
        ">" => Ok(Mark::File(words_of(alloc, rest)?)),
        _ => Err(Fault::Mark),
    }
}

/// What a line says.
pub(crate) fn mark_of(alloc: Global, line: &str) -> Result<Mark<'_>, Fault> {
    if line.is_empty() || line.starts_with('#') {
        return Ok(Mark::Comment);
    }
    if let Some(name) = line.strip_prefix("base ") {
        return Ok(Mark::Base(name));
    }
    if is_printed(line) {
        return Ok(Mark::Printed(line));
    }
    if line == "$!" {
        return Ok(Mark::Words(Vec::new(alloc)));
    }
    let Some((sign, rest)) = line.split_once(' ') else {
        return Err(Fault::Mark);
    };
    sign_of(alloc, sign, rest)
}
