//! The words of runs.

use crate::fault::Fault;
use crate::word::Word;
use std::alloc::Global;

/// An option, and the name of a file that it is given.
type Given = (&'static str, &'static str);

const SPEF: Given = ("--spef", "a.spef");

const LIB: Given = ("--lib", "l.lib");

const VERILOG: Given = ("--verilog", "v.v");

const CONS: Given = ("--cons", "c.txt");

const OUT_SPEF: Given = ("--out-spef", "o.spef");

const OUT_VERILOG: Given = ("--out-verilog", "o.v");

const CERT: Given = ("--cert", "k.txt");

const WIDTHS: Given = ("--widths", "w.txt");

static WIRE: [Given; 1] = [SPEF];

static DESIGN: [Given; 4] = [SPEF, LIB, VERILOG, CONS];

static BEST: [Given; 6] = [SPEF, LIB, VERILOG, CONS, OUT_SPEF, OUT_VERILOG];

static CHECK: [Given; 5] = [SPEF, LIB, VERILOG, CONS, CERT];

static WIDTH: [Given; 5] = [SPEF, LIB, VERILOG, CONS, WIDTHS];

static SEGMENT: [Given; 2] = [SPEF, OUT_SPEF];

/// The files that a mode asks for.
fn files_of(mode: &str) -> &'static [Given] {
    match mode {
        "wire" => &WIRE,
        "time" | "sta" | "frontier" | "total" => &DESIGN,
        "best" | "repair" => &BEST,
        "check" => &CHECK,
        "width" => &WIDTH,
        "segment" => &SEGMENT,
        _ => &[],
    }
}

/// Whether a word names an option.
fn names(word: &Word, option: &str) -> bool {
    match word.text.as_slice().strip_prefix(option.as_bytes()) {
        Some(rest) => rest.is_empty() || rest.first() == Some(&b'='),
        None => false,
    }
}

/// Adds what the mode asks for and these words do not name.
fn add_files(
    alloc: Global,
    mode: &str,
    words: &[Word],
    line: &mut Vec<String>,
) -> Result<(), Fault> {
    for (option, name) in files_of(mode) {
        if !words.iter().any(|word| names(word, option)) {
            line.push(String::from_str(alloc, option)?)?;
            line.push(String::from_str(alloc, name)?)?;
        }
    }
    Ok(())
}

/// The words as strings.
pub(crate) fn plain_words(alloc: Global, words: &[Word]) -> Result<Vec<String>, Fault> {
    let mut line = Vec::new(alloc);
    for word in words {
        line.push(word.to_string(alloc)?)?;
    }
    Ok(line)
}

/// The words of a run whose first word is a mode, with the files that the mode asks for and the words do not name.
pub(crate) fn mode_words(alloc: Global, words: &[Word]) -> Result<Vec<String>, Fault> {
    let Some((mode, rest)) = words.split_first() else {
        return Err(Fault::Mark);
    };
    let mode = mode.to_string(alloc)?;
    let mut line = Vec::new(alloc);
    line.push(String::from_str(alloc, "--mode")?)?;
    line.push(mode.clone()?)?;
    add_files(alloc, mode.as_str(), rest, &mut line)?;
    for word in rest {
        line.push(word.to_string(alloc)?)?;
    }
    Ok(line)
}
