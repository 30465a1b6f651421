use std::fmt::{Debug, Display};
use thiserror::Error;

/// Why a text gives no name.
#[derive(Clone, Copy, Debug, PartialEq, Eq, Error)]
pub enum NameFault {
    /// The text is empty, ends with a backslash that escapes nothing, or has an unescaped quote.
    #[error("not a name")]
    Bad,
    /// Out of memory.
    #[error("out of memory")]
    Memory,
}

/// What is wrong with a line of a text, and the line's number; the first is 1.
#[derive(Clone, Copy, Debug, PartialEq, Eq, Error)]
#[error_bound(K: Display)]
#[error("line {line}: {kind}")]
pub struct LineFault<K> {
    pub kind: K,
    pub line: usize,
}
