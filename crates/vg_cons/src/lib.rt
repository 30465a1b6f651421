//! Timing constraints: a text with a line for each row, and look-ups by name.
//!
//! ```text
//! vgcons 1                 the first line with words; or `vgcons 2`
//! default required T       the required time of every pin that has no row of its own
//! required PIN T
//! arrival PIN T
//! want PIN inverted
//! drive PORT R K           resistance and delay of what drives an input port
//! load PORT C
//! block NODE               nothing is placed at this node
//! allow NODE CELL ..       only these cells are placed at this node; in version 2
//! block_box X1 Y1 X2 Y2    nothing is placed at a node in this box; in version 2
//! ```
//!
//! T and K are picoseconds with a sign, R is ohms and C is femtofarads. X1 and Y1, X2 and Y2 are two corners of a box
//! that lie across from each other, in the coordinates of the SPEF file; the box has its border. A PIN is a port `name`
//! or a node `owner:leaf`, a PORT is a `name`, and a NODE is an `owner:leaf`: names of SPEF with the divider `/`, the
//! delimiter `:` and the bus delimiters `[` and `]`, where no name is an index. A CELL is a word as it stands. A row
//! but a box is given once for its name. What follows a `#` on its line is passed over.
#![tactic(auto)]

mod box_tree;
mod boxes;
mod constraints;
mod fault;
mod format;
mod line;
mod names;
mod node;
mod read;
mod row;
mod tables;

pub use constraints::{
    Constraints, allows, arrival, in_box, is_blocked, port_drive, port_load, required,
    wants_inverted,
};
pub use fault::{ConsFault, ConsKind};
pub use node::NodeRef;
pub use read::read_constraints;
