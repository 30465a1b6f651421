//! The repeaters of a library.

ghost use Rattle.std.specs.Prelude.{◌≡◌, ◌≤◌, ◌<◌, ℕ, ◌∷◌, [], ◌++◌, length, OnOk, IfOk, Err};
ghost use Rattle.lib_linear.specs.declared.repeater_search.NoRepeaters.TheVariants.{TooMany, Memory as OutOfMemory};
ghost use Rattle.lib_cells.specs.Cells.{bodies_of, cell_body, cell_groups};
ghost use Rattle.lib_linear.specs.Repeaters.{AreRepeaters, AreRepeatersOf, IsOver};
ghost use Rattle.lib_linear.specs.RepeaterSteps.{IsNext, IsOneMore};
ghost use Rattle.lib_cells.specs.Units.{AreUnits};

use crate::order::put_in_order;
use crate::repeater::{Repeater, repeater_of};
use lib_cells::{CellBody, Units};
use lib_text::Group;
use std::alloc::{AllocFailed, Global};
use vg_num::Memory;

/// How many repeaters are taken.
const MOST: usize = 256;

/// Why the repeaters of a library are not found.
#[derive(Clone, Copy, Debug, PartialEq, Eq)]
pub(crate) enum NoRepeaters {
    /// They are more than 256; where the name begins of the group of the cell that is the 257th.
    TooMany(usize),
    /// Out of memory.
    Memory,
}

impl From<Memory> for NoRepeaters {
    ghost from_gives = { λ _ why. why ≡ OutOfMemory };

    fn from(_: Memory) -> Self {
        NoRepeaters::Memory
    }
}

/// Puts a repeater behind those that were found before, if they are fewer than 256.
fn push_repeater(
    cell: &Group<'_>,
    repeater: Repeater,
    found: &mut Vec<Repeater>,
) -> Result<(), NoRepeaters>
    ensures found { OnOk result ((found.new.items ≡ found.old.items ++ repeater ∷ [])
        × (length found.old.items < 256)) }
    ensures many { (place : ℕ) → result ≡ Err (TooMany place)
        → (256 ≤ length found.old.items) × (place ≡ cell.now.head.name) }
{
    if found.len() >= MOST {
        return Err(NoRepeaters::TooMany(cell.head().name as usize));
    }
    match found.push(repeater) {
        Ok(()) => Ok(()),
        Err(_) => Err(NoRepeaters::Memory),
    }
}

/// Puts the repeater that a cell is, if it is one, behind those that were found before.
fn take_cell(
    alloc: Global,
    units: Units,
    cell: &Group<'_>,
    body: &CellBody,
    found: &mut Vec<Repeater>,
) -> Result<(), NoRepeaters>
    requires units { AreUnits units }
    requires body { body.now ≡ cell_body units cell.now }
    ensures next { OnOk result (IsNext units cell.now found.old.items found.new.items) }
    ensures many { (place : ℕ) → result ≡ Err (TooMany place) → IsOneMore units cell.now found.old.items place }
{
    match repeater_of(alloc, units, cell, body)? {
        None => Ok(()),
        Some(repeater) => push_repeater(cell, repeater, found),
    }
}

/// The repeaters among the cells of a library, in the order of the text.
fn repeaters_in_text(
    alloc: Global,
    units: Units,
    library: &Group<'_>,
    bodies: &[CellBody],
) -> Result<Vec<Repeater>, NoRepeaters>
    requires units { AreUnits units }
    requires bodies { bodies.now ≡ bodies_of units library.now }
    ensures found { IfOk result (λ reps. AreRepeaters units (cell_groups library.now) reps.items) }
    ensures few { IfOk result (λ reps. length reps.items ≤ 256) }
    ensures many { (place : ℕ) → result ≡ Err (TooMany place) → IsOver units (cell_groups library.now) place }
{
    let mut found = Vec::new(alloc);
    for (at, cell) in library.groups(b"cell").enumerate() {
        take_cell(alloc, units, &cell, &bodies[at], &mut found)?;
    }
    Ok(found)
}

/// The repeaters of a library, by rising resistance and then by the names of their cells; or the place of the cell that
/// is the 257th.
pub(crate) fn find_repeaters(
    alloc: Global,
    units: Units,
    library: &Group<'_>,
    bodies: &[CellBody],
) -> Result<Vec<Repeater>, NoRepeaters>
    requires units { AreUnits units }
    requires bodies { bodies.now ≡ bodies_of units library.now }
    ensures found { IfOk result (λ reps. AreRepeatersOf units (cell_groups library.now) reps.items) }
    ensures many { (place : ℕ) → result ≡ Err (TooMany place) → IsOver units (cell_groups library.now) place }
{
    let mut repeaters = repeaters_in_text(alloc, units, library, bodies)?;
    put_in_order(&mut repeaters)?;
    Ok(repeaters)
}
