use thiserror::Error;
use vg_scan::LineFault;

/// What is wrong with a line of a SPEF file (IEEE Std 1481).
#[derive(Clone, Copy, Debug, PartialEq, Eq, Error)]
pub enum SpefKind {
    /// A header line is missing, in another order, without a further word, or breaks its delimiter's rule.
    #[error("the header is not whole")]
    Header,
    /// A header line gives no unit that is taken.
    #[error("not a unit")]
    Unit,
    /// An index was mapped before.
    #[error("an index that is mapped twice")]
    MapTwice,
    /// A net's name is an index that no line before maps.
    #[error("an index that is not mapped")]
    MapUnknown,
    /// A net has no `*END`.
    #[error("a net without its end")]
    NoEnd,
    /// The line is none that may stand there.
    #[error("a stray line")]
    Stray,
    /// A net's name was that of a net before.
    #[error("a net that is given twice")]
    NetTwice,
    /// The line begins a part that is not supported.
    #[error("a part that is not supported")]
    Unsupported,
    /// Out of memory.
    #[error("out of memory")]
    Memory,
}

/// A fault of a SPEF file, and the number of its line; the first is 1.
pub type SpefFault = LineFault<SpefKind>;
