//! The flaws of the cells of a library.

ghost use Rattle.std.specs.Prelude.{◌≡◌, ◌≤◌, None, option_to_list, flat_map, fold, map, IfOk, IfErr, []};
ghost use Rattle.name_tables.specs.Distinct.{with_name};
ghost use Rattle.lib_cells.specs.Cells.{cell_groups, name_of, pin_groups, timings};
ghost use Rattle.lib_cells.specs.FirstFlaws.{first_of};
ghost use Rattle.lib_cells.specs.Flaws.{IsFirstOrMemory, cell_flaws, number_flaws, pin_flaws, slope_flaws, timing_flaws, twice_flaw, twice_flaws, value_flaws};
ghost use Rattle.lib_cells.specs.Units.{AreUnits};

use crate::cell::name_of;
use crate::fault::{LibFault, LibKind, OUT_OF_MEMORY};
use crate::flaw::{Flaw, first_of};
use crate::related_pins::add_name;
use crate::units::Units;
use crate::values::{number_of, signed_of};
use lib_text::Group;
use name_tables::Names;
use std::alloc::Global;
use vg_num::Memory;

/// What is wrong with a number that is used.
fn number_flaw(group: &Group<'_>, name: &[u8], places: u32) -> Option<Flaw>
    requires { places ≤ 60 }
    ensures { option_to_list result ≡ number_flaws group.now name.now places }
{
    let attribute = group.attribute(name)?;
    match number_of(group, places, attribute) {
        Ok(_) => None,
        Err(fault) => Some(Flaw::new(LibKind::Number(fault), attribute)),
    }
}

/// What is wrong with a slope.
fn slope_flaw(timing: &Group<'_>, name: &[u8]) -> Option<Flaw>
    ensures { option_to_list result ≡ slope_flaws timing.now name.now }
{
    let attribute = timing.attribute(name)?;
    match signed_of(timing, 9, attribute) {
        Ok(slope) => {
            if slope == 0 {
                None
            } else {
                Some(Flaw::new(LibKind::Slope, attribute))
            }
        }
        Err(fault) => Some(Flaw::new(LibKind::Number(fault), attribute)),
    }
}

/// The first flaw of a timing group, or the one before it.
#[tactic(auto, using(crate::proofs::FlawLemmas::first_append))]
fn first_in_timing(
    bytes: &[u8],
    units: Units,
    timing: &Group<'_>,
    first: Option<Flaw>,
) -> Option<Flaw>
    requires { AreUnits units }
    ensures { result ≡ first_of bytes.now first (timing_flaws units timing.now) }
{
    let times = units.times();
    let resistances = units.resistances();
    let first = first_of(bytes, first, number_flaw(timing, b"intrinsic_rise", times));
    let first = first_of(bytes, first, number_flaw(timing, b"intrinsic_fall", times));
    let first = first_of(
        bytes,
        first,
        number_flaw(timing, b"rise_resistance", resistances),
    );
    let first = first_of(
        bytes,
        first,
        number_flaw(timing, b"fall_resistance", resistances),
    );
    let first = first_of(bytes, first, slope_flaw(timing, b"slope_rise"));
    first_of(bytes, first, slope_flaw(timing, b"slope_fall"))
}

/// The first flaw of the timing groups of a pin, or the one before them.
fn first_in_timings(
    bytes: &[u8],
    units: Units,
    pin: &Group<'_>,
    first: Option<Flaw>,
) -> Option<Flaw>
    requires { AreUnits units }
    ensures { result ≡ first_of bytes.now first (flat_map (timing_flaws units) (timings pin.now)) }
{
    let mut first = first;
    'timing: for timing in pin.groups(b"timing") {
        first = first_in_timing(bytes, units, &timing, first);
    }
    first
}

/// The first flaw of a pin, or the one before it.
#[tactic(auto, using(crate::proofs::FlawLemmas::first_append))]
fn first_in_pin(bytes: &[u8], units: Units, pin: &Group<'_>, first: Option<Flaw>) -> Option<Flaw>
    requires { AreUnits units }
    ensures { result ≡ first_of bytes.now first (pin_flaws units pin.now) }
{
    let places = units.capacitances();
    let first = first_of(bytes, first, number_flaw(pin, b"capacitance", places));
    let first = first_of(bytes, first, number_flaw(pin, b"max_capacitance", places));
    first_in_timings(bytes, units, pin, first)
}

/// The first flaw of the pins of a cell, or the one before them.
fn first_in_pins(bytes: &[u8], units: Units, cell: &Group<'_>, first: Option<Flaw>) -> Option<Flaw>
    requires { AreUnits units }
    ensures { result ≡ first_of bytes.now first (flat_map (pin_flaws units) (pin_groups cell.now)) }
{
    let mut first = first;
    'pin: for pin in cell.groups(b"pin") {
        first = first_in_pin(bytes, units, &pin, first);
    }
    first
}

/// The first flaw of the numbers of a library's cells, or the one before them.
fn first_in_cells(
    bytes: &[u8],
    units: Units,
    library: &Group<'_>,
    first: Option<Flaw>,
) -> Option<Flaw>
    requires { AreUnits units }
    ensures { result ≡ first_of bytes.now first (flat_map (cell_flaws units) (cell_groups library.now)) }
{
    let mut first = first;
    'cell: for cell in library.groups(b"cell") {
        first = first_of(bytes, first, number_flaw(&cell, b"area", 3));
        first = first_in_pins(bytes, units, &cell, first);
    }
    first
}

/// Whether a cell's name is one of these.
fn twice_flaw(names: &Names, cell: &Group<'_>) -> Option<Flaw>
    ensures { option_to_list result ≡ twice_flaw names.now cell.now }
{
    match names.find(name_of(cell)) {
        Some(_) => Some(Flaw::new(LibKind::CellTwice, cell.head())),
        None => None,
    }
}

/// The names of a library's cells, each once, and the first cell whose name was used before.
fn names_of_cells(
    alloc: Global,
    bytes: &[u8],
    library: &Group<'_>,
) -> Result<(Names, Option<Flaw>), Memory>
    ensures names { IfOk result (λ found. found.0 ≡ fold with_name [] (map name_of (cell_groups library.now))) }
    ensures first { IfOk result (λ found. found.1
        ≡ first_of bytes.now None (twice_flaws [] (cell_groups library.now))) }
{
    let mut names = Names::new(alloc);
    let mut first = None;
    'cell: for cell in library.groups(b"cell") {
        first = first_of(bytes, first, twice_flaw(&names, &cell));
        add_name(&mut names, name_of(&cell))?;
    }
    Ok((names, first))
}

/// The names of a library's cells, of a text of these bytes, where each number that is used is one, each slope is 0 and
/// no name is used twice; or the first fault: `CellTwice`, `Number` or `Slope`. Answers `Memory`, at line 1, where
/// there is no room.
pub fn check_cells(
    alloc: Global,
    bytes: &[u8],
    units: Units,
    library: &Group<'_>,
) -> Result<Names, LibFault>
    requires { AreUnits units }
    ensures names { IfOk result (λ names. names ≡ map name_of (cell_groups library.now)) }
    ensures sound { IfOk result (λ _. value_flaws units library.now ≡ []) }
    ensures fault { IfErr result (IsFirstOrMemory bytes.now (value_flaws units library.now)) }
{
    let Ok((names, first)) = names_of_cells(alloc, bytes, library) else {
        return Err(OUT_OF_MEMORY);
    };
    match first_in_cells(bytes, units, library, first) {
        None => Ok(names),
        Some(flaw) => Err(flaw.to_fault(bytes)),
    }
}
