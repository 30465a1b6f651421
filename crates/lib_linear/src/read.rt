//! From the text of a library to the library.

ghost use Rattle.std.specs.Prelude.{◌≡◌, ◌⊎◌, ◌≤◌, ◌^◌, length, IfOk, IfErr};
ghost use Rattle.lib_cells.specs.Cells.{bodies_of, cell_groups};
ghost use Rattle.lib_cells.specs.Flaws.{IsOutOfMemory};
ghost use Rattle.lib_cells.specs.Units.{AreUnits};
ghost use Rattle.lib_linear.specs.Faults.{HasTooMany, IsFirstFault, IsLibraryFault};
ghost use Rattle.lib_linear.specs.Libraries.{Denotes, Says};
ghost use Rattle.lib_linear.specs.Repeaters.{AreRepeatersOf};

use crate::checked::checked_text;
use crate::library::Library;
use crate::repeater::Repeater;
use crate::repeater_search::{NoRepeaters, find_repeaters};
use lib_cells::{
    CellBody, LibFault, LibKind, OUT_OF_MEMORY, Units, bodies_of, check_cells, read_units,
};
use lib_text::{Group, line_at, statements_of};
use std::alloc::Global;

/// The repeaters of a library with these cells, or the line of the 257th.
fn read_repeaters(
    alloc: Global,
    bytes: &[u8],
    units: Units,
    library: &Group<'_>,
    bodies: &[CellBody],
) -> Result<Vec<Repeater>, LibFault>
    requires units { AreUnits units }
    requires bodies { bodies.now ≡ bodies_of units library.now }
    ensures repeaters { IfOk result (λ reps. AreRepeatersOf units (cell_groups library.now) reps.items) }
    ensures fault { IfErr result (λ fault. IsOutOfMemory fault ⊎ HasTooMany bytes.now units library.now fault) }
{
    match find_repeaters(alloc, units, library, bodies) {
        Ok(repeaters) => Ok(repeaters),
        Err(NoRepeaters::TooMany(place)) => Err(LibFault {
            kind: LibKind::TooManyRepeaters,
            line: line_at(bytes, place),
        }),
        Err(NoRepeaters::Memory) => Err(OUT_OF_MEMORY),
    }
}

/// What a library's statements say, or their first fault.
fn read_statements(alloc: Global, bytes: &[u8], library: &Group<'_>) -> Result<Library, LibFault>
    ensures says { IfOk result (Says library.now) }
    ensures fault { IfErr result (λ fault. IsOutOfMemory fault ⊎ IsLibraryFault bytes.now library.now fault) }
{
    let units = read_units(bytes, library)?;
    let names = check_cells(alloc, bytes, units, library)?;
    let Ok(bodies) = bodies_of(alloc, units, library, names.len()) else {
        return Err(OUT_OF_MEMORY);
    };
    let repeaters = read_repeaters(alloc, bytes, units, library, &bodies)?;
    Ok(Library::new(names, bodies, repeaters))
}

/// The library of a text; or the text's first fault, with the number of its line. Answers `Memory`, at line 1, where
/// there is no room.
///
/// The text is a library of the Liberty User Guide, Synopsys, with the linear delay model `generic_cmos`. Its syntax is
/// read first, then its model and its units, then its cells with their names, numbers and slopes, and then the
/// repeaters are counted. The first of these passes that finds a fault decides, and of its faults that on the earliest
/// line. On one line `NotLinear` comes before `Unit`, and `CellTwice` before `Number`, and this before `Slope`; of one
/// kind the first in the text.
pub fn read_library(alloc: Global, bytes: &[u8]) -> Result<Library, LibFault>
    requires { length bytes.now ≤ 2 ^ 28 }
    ensures library { IfOk result (Denotes bytes.now) }
    ensures fault { IfErr result (λ fault. IsOutOfMemory fault ⊎ IsFirstFault bytes.now fault) }
{
    let text = checked_text(alloc, bytes)?;
    let Ok(statements) = statements_of(alloc, &text) else {
        return Err(OUT_OF_MEMORY);
    };
    read_statements(alloc, bytes, &Group::library(&text, &statements))
}
