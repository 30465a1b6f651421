ghost use Rattle.wire_widths.specs.Widths.{AreWidths};

use crate::width::Width;
use vg_num::Row;

/// The widths that the wires of a net may have: one to eight, of which the first leaves a wire as it is.
#[derive(Drop)]
pub struct Widths {
    pub rows: Row<Width>,
    pub ghost are: { AreWidths rows },
}
