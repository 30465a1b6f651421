//! The files that are written.

/// A file that is written.
#[derive(Clone, Copy, Debug, PartialEq, Eq)]
pub enum Output {
    /// The changed netlist.
    Netlist,
    /// The changed parasitics.
    Parasitics,
    /// The certificate of the best placement.
    Certificate,
}
