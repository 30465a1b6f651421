//! The limits of a net.

/// The most nodes.
pub const MOST_NODES: usize = 65_536;

/// The most capacitors.
pub const MOST_CAPACITORS: usize = 1 << 20;
