use thiserror::Error;
use vg_num::NumFault;
use vg_scan::LineFault;

/// What is wrong with a line of a section.
#[derive(Clone, Copy, Debug, PartialEq, Eq, Error)]
pub enum NetKind {
    /// A line before the first part, or a line of connections of another form, with an unknown index or a bad name, or
    /// naming a connection again.
    #[error("no connection")]
    Conn,
    /// A line of capacitors with another number of words, an unknown index or a bad name.
    #[error("no capacitor")]
    Cap,
    /// A line of resistors with another number of words, an unknown index or a bad name.
    #[error("no resistor")]
    Res,
    /// A value that cannot be read; it is the first such one of the line.
    #[error("{0}")]
    Number(NumFault),
    /// No node of a capacitor, or not both nodes of a resistor, is this net's.
    #[error("a node of another net")]
    Foreign,
    /// Both nodes of a coupling capacitor are this net's.
    #[error("a net coupled with itself")]
    SelfCoupled,
    /// Out of memory.
    #[error("out of memory")]
    Memory,
}

/// A fault of a section, and the number of its line in the file.
pub type NetFault = LineFault<NetKind>;
