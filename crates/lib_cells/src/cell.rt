//! The cells of a library.

ghost use Rattle.std.specs.Prelude.{◌≡◌, IfOk};
ghost use Rattle.lib_cells.specs.Cells.{area_of, bodies_of, cell_body, first_name, name_of};
ghost use Rattle.lib_cells.specs.Units.{AreUnits};

use crate::pins::{Pins, pins_of};
use crate::units::Units;
use crate::values::given;
use lib_text::Group;
use std::alloc::Global;
use vg_num::Memory;

/// What stands in a cell of a library. A library may have millions of small cells, so the name of a cell stands in a
/// table with those of the others, as of `check_cells`.
#[derive(Drop)]
pub struct CellBody {
    pub pins: Pins,
    /// Its area (thousandths); 0 where it is not given.
    pub area: u64,
}

/// The name of a cell.
pub fn name_of<'a>(cell: &Group<'a>) -> &'a [u8]
    ensures { result.now ≡ name_of cell.now }
{
    match cell.names().next() {
        Some(name) => name,
        None => b"",
    }
}

/// The area of a cell; 0 where it is not given.
fn area_of(cell: &Group<'_>) -> u64
    ensures { result ≡ area_of cell.now }
{
    given(cell, b"area", 3).unwrap_or(0)
}

/// What stands in a cell.
fn cell_body(alloc: Global, units: Units, cell: &Group<'_>) -> Result<CellBody, Memory>
    requires { AreUnits units }
    ensures { IfOk result (λ body. body ≡ cell_body units cell.now) }
{
    Ok(CellBody {
        pins: pins_of(alloc, units, cell)?,
        area: area_of(cell),
    })
}

/// What stands in each cell of a library, in the order of its text. Room is made for so many cells at first: a list
/// that grows is held twice. Answers `Memory` where there is no room.
pub fn bodies_of(
    alloc: Global,
    units: Units,
    library: &Group<'_>,
    room: usize,
) -> Result<Vec<CellBody>, Memory>
    requires { AreUnits units }
    ensures { IfOk result (λ bodies. bodies.items ≡ bodies_of units library.now) }
{
    let mut bodies = Vec::with_capacity(alloc, room)?;
    'cell: for cell in library.groups(b"cell") {
        bodies.push(cell_body(alloc, units, &cell)?)?;
    }
    Ok(bodies)
}
