use thiserror::Error;
use vg_num::NumFault;
use vg_scan::LineFault;

/// What is wrong with a line of a constraints text.
#[derive(Clone, Copy, Debug, PartialEq, Eq, Error)]
pub enum ConsKind {
    /// The first line with words is neither `vgcons 1` nor `vgcons 2`, or no line has words.
    #[error("no heading `vgcons 1` or `vgcons 2`")]
    Version,
    /// The first word is none of the version's, or the number of words, a fixed word or the form of a name is another.
    #[error("words that are no row")]
    Word,
    /// A number cannot be read; it is the first such one of the line.
    #[error("{0}")]
    Number(NumFault),
    /// A row of the same kind and name, or the default, was given before. A box may be given again.
    #[error("given twice")]
    Twice,
    /// Out of memory.
    #[error("out of memory")]
    Memory,
}

/// A fault of a constraints text, and the number of its line; the first is 1.
pub type ConsFault = LineFault<ConsKind>;
