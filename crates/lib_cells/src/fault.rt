use thiserror::Error;
use vg_num::NumFault;
use vg_scan::LineFault;

/// What is wrong with a line of a library (Liberty User Guide, Synopsys).
#[derive(Clone, Copy, Debug, PartialEq, Eq, Error)]
pub enum LibKind {
    /// The grammar does not allow a token that begins on the line, or the text ends too soon. It allows no group inside
    /// 64 others, and no name of a cell or a pin that is none.
    #[error("not the syntax of a library")]
    Syntax,
    /// The model of delays is not the linear one, `generic_cmos`.
    #[error("not the linear delay model")]
    NotLinear,
    /// A slope is not zero.
    #[error("a slope that is not zero")]
    Slope,
    /// A unit is none that is taken, or the unit of loads is absent.
    #[error("not a unit")]
    Unit,
    /// A number that is used cannot be read.
    #[error("{0}")]
    Number(NumFault),
    /// A cell's name was that of a cell before.
    #[error("a cell that is given twice")]
    CellTwice,
    /// The line begins the cell that is the 257th repeater; 256 are taken.
    #[error("too many repeaters")]
    TooManyRepeaters,
    /// Out of memory.
    #[error("out of memory")]
    Memory,
}

/// A fault of a library, and the number of its line; the first is 1.
pub type LibFault = LineFault<LibKind>;

/// Out of memory, which is told at line 1.
pub const OUT_OF_MEMORY: LibFault = LibFault {
    kind: LibKind::Memory,
    line: 1,
};
