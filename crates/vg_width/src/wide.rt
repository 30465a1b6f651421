use elmore::Placement;
use vg_num::Row;

/// A best choice of repeaters and of one width for each wire of a net, and its slack (zs).
#[derive(Drop)]
pub struct WideBest {
    pub slack: i128,
    pub placement: Placement,
    /// For each node the number of the width of the wire above it.
    pub chosen: Row<u8>,
}
