use thiserror::Error;
use vg_scan::LineFault;

/// What is wrong with a line of a text of widths. Where several are wrong with one line, the first of these counts.
#[derive(Clone, Copy, Debug, PartialEq, Eq, Error)]
pub enum WidthKind {
    /// The first line is not `vgwidth 1`, or there is none.
    #[error("no heading `vgwidth 1`")]
    Version,
    /// The first word of a later line is not `width`, or it has not four words.
    #[error("words that are no width")]
    Word,
    /// A number has too many digits or a byte that is no digit, or is not within its limits.
    #[error("numbers that are no width")]
    Number,
    /// The second line is not `width 1 1 0`, or there is none.
    #[error("no first width `width 1 1 0`")]
    First,
    /// Eight widths stand before it.
    #[error("more than eight widths")]
    TooMany,
    /// Out of memory.
    #[error("out of memory")]
    Memory,
}

/// A fault of a text of widths, and the number of its line; the first is 1.
pub type WidthFault = LineFault<WidthKind>;
