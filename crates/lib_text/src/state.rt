//! Where a machine stands that reads a library.

/// The name of a statement, as far as the grammar tells names apart.
#[derive(Clone, Copy, Debug, PartialEq, Eq, Drop)]
pub(crate) enum Head {
    Library,
    Cell,
    Pin,
    Other,
}

/// What was read last.
#[derive(Clone, Copy, Debug, PartialEq, Eq, Drop)]
pub(crate) enum At {
    /// Nothing.
    Start,
    /// The `{` of a group, a statement, or the library.
    Body,
    /// The name of a statement.
    Named(Head),
    /// The `:` of an attribute.
    Value,
    /// The `(` after a name.
    Opened(Head),
    /// Arguments with which the name may begin a group.
    Listed(Head),
    /// Arguments of an attribute alone.
    Passed,
    /// The `)` after arguments with which the name may begin a group.
    Closed(Head),
}

/// Where the machine stands: what was read last, how many groups are open, and whether the second of them is a cell.
#[derive(Clone, Copy, Debug, PartialEq, Eq, Drop)]
pub(crate) struct State {
    pub at: At,
    pub depth: usize,
    pub in_cell: bool,
}
