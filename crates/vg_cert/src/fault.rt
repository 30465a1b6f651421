use thiserror::Error;
use vg_num::NumFault;
use vg_scan::LineFault;

/// What is wrong with a line of a certificate.
#[derive(Clone, Copy, Debug, PartialEq, Eq, Error)]
pub enum CertKind {
    /// The line has another shape or number of words than the line that is due here, or is one too many. Or it
    /// announces a negative number of lines or one over 2^28, or places a cell where there is no slack. Or it has no
    /// fault of its own, but is the last one, and the line after it is missing; of an empty text the first line is.
    #[error("not the line that is due here")]
    Form,
    /// A number cannot be read; it is the first such one of the line.
    #[error("{0}")]
    Number(NumFault),
    /// The name is not the net's, no node's, or not that of the node whose lists are due.
    #[error("another node")]
    Node,
    /// The cell is no repeater's.
    #[error("not a repeater")]
    Cell,
    /// Nodes with a cell do not stand in the order of the tree, or the pairs of a list do not rise in both numbers.
    #[error("out of order")]
    Order,
    /// Out of memory.
    #[error("out of memory")]
    Memory,
}

/// A fault of a certificate's text, and the number of its line; the first is 1.
pub type CertFault = LineFault<CertKind>;
