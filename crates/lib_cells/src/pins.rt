//! The pins of a cell.

ghost use Rattle.std.specs.Prelude.{◌≡◌, ◌==◌, ◌<◌, length, find, slice_get, Some, IfOk};
ghost use Rattle.std.specs.Str.{bytes_eq};
ghost use Rattle.lib_cells.specs.Cells.{pins_of};
ghost use Rattle.lib_cells.specs.Units.{AreUnits};

use crate::pin_rows::{Pin, PinRows, PinTable};
use crate::units::Units;
use lib_text::Group;
use std::alloc::Global;
use std::marker::Model;
use vg_num::Memory;

/// The pins of a cell, in the order of the text. Contracts see their list. They take no memory where there are none.
#[derive(Drop)]
pub struct Pins {
    rows: Option<Box<PinRows>>,
}

impl Model for Pins {
    ghost use Rattle.std.specs.Prelude.{List, [], option_map, unwrap_or};
    ghost use Rattle.lib_cells.specs.PinInfos.{PinInfo};

    ghost Value = { List PinInfo };

    ghost view = { λ pins. unwrap_or (option_map (λ rows. rows.value) pins.rows) [] };
}

impl Pins {
    /// These pins.
    fn new(alloc: Global, rows: PinRows) -> Result<Pins, Memory>
        ensures { IfOk result (λ pins. pins ≡ rows) }
    {
        if rows.is_empty() {
            return Ok(Pins { rows: None });
        }
        let rows = Box::new(alloc, rows)?;
        Ok(Pins { rows: Some(rows) })
    }

    /// How many pins there are.
    pub fn len(&self) -> usize
        ensures { result ≡ length self.now }
    {
        match &self.rows {
            Some(rows) => rows.len(),
            None => 0,
        }
    }

    /// Whether there is no pin.
    pub fn is_empty(&self) -> bool
        ensures { result ≡ (length self.now == 0) }
    {
        self.len() == 0
    }

    /// The pin of this number, counted from 0.
    pub fn get(&self, at: usize) -> Pin<'_>
        requires { at < length self.now }
        ensures { slice_get self.now at ≡ Some result }
    {
        match &self.rows {
            Some(rows) => rows.get(at),
            None => unreachable!(),
        }
    }

    /// The first pin of this name. `None`: there is none. It takes no memory.
    pub fn find(&self, name: &[u8]) -> Option<Pin<'_>>
        ensures { result ≡ find (λ pin. bytes_eq name.now pin.name) self.now }
    {
        match &self.rows {
            Some(rows) => rows.find(name),
            None => None,
        }
    }
}

/// The pins of a cell.
pub(crate) fn pins_of(alloc: Global, units: Units, cell: &Group<'_>) -> Result<Pins, Memory>
    requires { AreUnits units }
    ensures { IfOk result (λ pins. pins ≡ pins_of units cell.now) }
{
    let mut table = PinTable::new(alloc);
    'pin: for pin in cell.groups(b"pin") {
        table.push_group(alloc, units, &pin)?;
    }
    let rows = PinRows::new(alloc, table)?;
    let pins = Pins::new(alloc, rows)?;
    Ok(pins)
}
