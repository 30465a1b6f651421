//! Why a case file cannot be run.

use std::alloc::{AllocError, AllocFailed};
use thiserror::Error;
use vg_num::Memory;

/// What is wrong with a line of a case file.
#[derive(Clone, Copy, Debug, PartialEq, Eq, Error)]
pub(crate) enum Fault {
    #[error("out of memory")]
    Memory,
    #[error("a line with no such mark")]
    Mark,
    #[error("a text in quotes that is not in its form")]
    Quotes,
    #[error("no run stands above")]
    NoRun,
    #[error("no case begins above")]
    NoCase,
    #[error("no line `.` ends the text")]
    NoEnd,
    #[error("a number is wanted")]
    Number,
    #[error("the old text does not stand exactly once in the file")]
    NotOnce,
    #[error("the old text does not stand in the file")]
    NotThere,
    #[error("the file has no such line")]
    NoLine,
    #[error("there is no such file")]
    NoFile,
    #[error("the file could not be written")]
    Unwritten,
}

impl From<AllocError> for Fault {
    fn from(_: AllocError) -> Self {
        Fault::Memory
    }
}

impl<T: Drop> From<AllocFailed<T>> for Fault {
    fn from(_: AllocFailed<T>) -> Self {
        Fault::Memory
    }
}

impl From<Memory> for Fault {
    fn from(_: Memory) -> Self {
        Fault::Memory
    }
}

/// A fault, and the number of the line where it is.
#[derive(Clone, Copy, Debug, PartialEq, Eq)]
pub(crate) struct FaultAt {
    pub(crate) line: usize,
    pub(crate) fault: Fault,
}
