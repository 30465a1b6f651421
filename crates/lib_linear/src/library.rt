//! A library, and what it says of pins.

ghost use Rattle.std.specs.Prelude.{◌≡◌, [], ◌<◌, find, length, option_copied, option_map, slice_get, unwrap_or};
ghost use Rattle.std.specs.Str.{bytes_eq};
ghost use Rattle.lib_cells.specs.Cells.{cells_named};
ghost use Rattle.lib_linear.specs.Libraries.{AreOfCells, cap_of, drive_in, limit_of, pin_in, related_to};

use crate::repeater::Repeater;
use lib_cells::{CellBody, Pin};
use name_tables::Names;
use std::marker::Model;
use vg_num::Row;

/// The cells of a library, and those of them that are repeaters. Contracts see both as lists: the cells in the order of
/// the text, the repeaters by rising resistance, then by name. The name of a cell stands in the table alone.
#[derive(Drop)]
pub struct Library {
    names: Names,
    bodies: Row<CellBody>,
    repeaters: Row<Repeater>,
}

impl Model for Library {
    ghost use Rattle.std.specs.Prelude.{◌≡◌, length};
    ghost use Rattle.lib_cells.specs.Cells.{cells_named};
    ghost use Rattle.lib_linear.specs.Libraries.{AreOfCells, Cells};

    ghost Value = { Cells };

    ghost view = { λ library. record {
      cells = cells_named library.names library.bodies;
      repeaters = library.repeaters;
    } };

    ghost invariant = { λ library. (length library.names ≡ length library.bodies)
        × AreOfCells (record {
          cells = cells_named library.names library.bodies;
          repeaters = library.repeaters;
        }) };
}

impl Library {
    /// The library of cells with these names, in which this stands, and of these repeaters.
    pub(crate) fn new(names: Names, bodies: Vec<CellBody>, repeaters: Vec<Repeater>) -> Library
        requires names { length names ≡ length bodies.items }
        requires repeaters { AreOfCells (record {
          cells = cells_named names bodies.items;
          repeaters = repeaters.items;
        }) }
        ensures cells { result.cells ≡ cells_named names bodies.items }
        ensures repeaters { result.repeaters ≡ repeaters.items }
    {
        Library {
            names,
            bodies: Row::from_vec(bodies),
            repeaters: Row::from_vec(repeaters),
        }
    }
}

/// What stands in the cell of this number.
fn body_at(bodies: &[CellBody], at: usize) -> Option<&CellBody>
    ensures { option_copied result ≡ slice_get bodies.now at }
{
    if at < bodies.len() {
        Some(&bodies[at])
    } else {
        None
    }
}

/// What stands in the cell of this name, of cells with these names.
fn body_of<'a>(names: &Names, bodies: &'a [CellBody], name: &[u8]) -> Option<&'a CellBody>
    requires { length names.now ≡ length bodies.now }
    ensures { option_map (λ body. body.pins) (option_copied result) ≡ option_map (λ info. info.pins)
        (find (λ info. bytes_eq name.now info.name) (cells_named names.now bodies.now)) }
{
    match names.find(name) {
        Some(id) => body_at(bodies, id as usize),
        None => None,
    }
}

/// The first pin of this name of the cell of this name.
fn pin_in<'a>(library: &'a Library, cell: &[u8], pin: &[u8]) -> Option<Pin<'a>>
    ensures { result ≡ pin_in library.now cell.now pin.now }
{
    let body = body_of(&library.names, library.bodies.as_slice(), cell)?;
    body.pins.find(pin)
}

/// A law: what a library says of the pins of a repeater is what the repeater does, and no two repeaters are of one
/// cell.
pub fn repeaters_are_of_cells(library: &Library)
    ensures { AreOfCells library.now }
{
    let _ = &library.names;
}

/// The repeaters of a library, by rising resistance, then by the names of their cells. It takes no memory.
pub fn repeaters(library: &Library) -> &[Repeater]
    ensures { result.now ≡ library.now.repeaters }
{
    library.repeaters.as_slice()
}

/// The capacitance of a pin (aF). `None`: the library has no such cell, the cell no such pin, or the pin no
/// capacitance. Of two pins of one name the first counts. It takes no memory.
pub fn pin_cap(library: &Library, cell: &[u8], pin: &[u8]) -> Option<u64>
    ensures { result ≡ cap_of library.now cell.now pin.now }
{
    pin_in(library, cell, pin)?.group.cap
}

/// The delay without a load (zs) and the resistance (mΩ) of a pin: the greatest that its timing groups give. `None`: no
/// such cell or pin, the pin is no output, or its timing groups give no intrinsic time or no resistance. It takes no
/// memory.
pub fn pin_drive(library: &Library, cell: &[u8], pin: &[u8]) -> Option<(u64, u64)>
    ensures { result ≡ drive_in library.now cell.now pin.now }
{
    pin_in(library, cell, pin)?.group.drive
}

/// The greatest load that a pin may charge (aF). `None`: no such cell or pin, or it has no such limit. It takes no
/// memory.
pub fn pin_limit(library: &Library, cell: &[u8], pin: &[u8]) -> Option<u64>
    ensures { result ≡ limit_of library.now cell.now pin.now }
{
    pin_in(library, cell, pin)?.group.max
}

/// The pins that the timing groups of an output name as related, each once, in the order of the text, to be found by a
/// table. `None`: there are none, as of any other pin. It takes no memory.
pub fn related<'a>(library: &'a Library, cell: &[u8], pin: &[u8]) -> Option<&'a Names>
    ensures { unwrap_or (option_copied result) [] ≡ related_to library.now cell.now pin.now }
{
    pin_in(library, cell, pin)?.group.related.names()
}
