//! The pins of a cell that has any.

ghost use Rattle.std.specs.Prelude.{◌≡◌, ◌==◌, ◌<◌, ◌++◌, [], length, find, map, slice_get, Some, IfOk, IfSome, OnOk};
ghost use Rattle.std.specs.List.{position};
ghost use Rattle.std.specs.Str.{bytes_eq};
ghost use Rattle.lib_text.specs.Groups.{names_of};
ghost use Rattle.lib_cells.specs.Cells.{pin_info};
ghost use Rattle.lib_cells.specs.PinTables.{AreFirst, IsPinTable, pins_by};
ghost use Rattle.lib_cells.specs.Units.{AreUnits};

use crate::first_places::{FirstPlaces, first_place};
use crate::pin::PinGroup;
use crate::units::Units;
use lib_text::Group;
use name_tables::Texts;
use std::alloc::Global;
use std::marker::Model;
use vg_num::Memory;

/// A cell with more pins than these has a table of the first pin of each name. A walk over fewer is faster.
const MOST_WALKED: usize = 16;

/// A pin of a cell: its name, and what all pins of its group share.
#[derive(Drop)]
pub struct Pin<'a> {
    pub name: &'a [u8],
    pub group: &'a PinGroup,
}

impl<'a> Model for Pin<'a> {
    ghost use Rattle.lib_cells.specs.PinInfos.{PinInfo};
    ghost use Rattle.lib_cells.specs.PinTables.{named};

    ghost Value = { PinInfo };

    ghost view = { λ pin. named pin.group.now pin.name.now };
}

/// The names of a cell's pins, for each the number of its pin group, and the groups.
#[derive(Drop)]
pub(crate) struct PinTable {
    pub(crate) names: Texts,
    pub(crate) numbers: Vec<u32>,
    pub(crate) groups: Vec<PinGroup>,
}

/// Pins in the order of the text. Contracts see their list. What the pins of a group share stands once, so that a pin
/// takes eight bytes beside its name; where there are many, their names stand in a table too.
#[derive(Drop)]
pub(crate) struct PinRows {
    table: PinTable,
    /// Where each name comes first, where there are many pins.
    first: Option<Box<FirstPlaces>>,
}

impl Model for PinRows {
    ghost use Rattle.std.specs.Prelude.{List, IfSome};
    ghost use Rattle.lib_cells.specs.PinInfos.{PinInfo};
    ghost use Rattle.lib_cells.specs.PinTables.{AreFirst, IsPinTable, pins_by};

    ghost Value = { List PinInfo };

    ghost view = { λ rows. pins_by rows.table };

    ghost invariant = { λ rows. IsPinTable rows.table
        × IfSome rows.first (λ first. AreFirst rows.table.names first.value) };
}

/// Puts the pins of a pin group last, whose group has this number.
fn push_names(
    pin: &Group<'_>,
    number: u32,
    names: &mut Texts,
    numbers: &mut Vec<u32>,
) -> Result<(), Memory>
    ensures names { OnOk result (names.new ≡ names.old ++ names_of pin.now) }
    ensures numbers { OnOk result (numbers.new.items ≡ numbers.old.items ++ map (λ _. number) (names_of pin.now)) }
{
    'name: for name in pin.names() {
        names.push(name)?;
        numbers.push(number)?;
    }
    Ok(())
}

impl PinTable {
    /// No pins.
    pub(crate) fn new(alloc: Global) -> PinTable
        ensures table { IsPinTable result }
        ensures pins { pins_by result ≡ [] }
    {
        PinTable {
            names: Texts::new(alloc),
            numbers: Vec::new(alloc),
            groups: Vec::new(alloc),
        }
    }

    /// Puts a pin group and its pins last.
    pub(crate) fn push_group(
        &mut self,
        alloc: Global,
        units: Units,
        pin: &Group<'_>,
    ) -> Result<(), Memory>
        requires units { AreUnits units }
        requires table { IsPinTable self.old }
        ensures table { OnOk result (IsPinTable self.new) }
        ensures pins { OnOk result (pins_by self.new
            ≡ pins_by self.old ++ map (pin_info units pin.now) (names_of pin.now)) }
    {
        let Ok(number) = u32::try_from(self.groups.len()) else {
            return Err(Memory);
        };
        let group = PinGroup::of(alloc, units, pin)?;
        self.groups.push(group)?;
        push_names(pin, number, &mut self.names, &mut self.numbers)?;
        Ok(())
    }
}

/// Where names come first, where they are many.
fn first_of(alloc: Global, names: &Texts) -> Result<Option<Box<FirstPlaces>>, Memory>
    ensures { IfOk result (λ first. IfSome first (λ first. AreFirst names.now first.value)) }
{
    if names.len() <= MOST_WALKED {
        return Ok(None);
    }
    let first = Box::new(alloc, FirstPlaces::of(alloc, names)?)?;
    Ok(Some(first))
}

impl PinRows {
    /// The pins of a table. Most cells are small, so it keeps no room for more of them.
    pub(crate) fn new(alloc: Global, mut table: PinTable) -> Result<PinRows, Memory>
        requires { IsPinTable table }
        ensures { IfOk result (λ rows. rows ≡ pins_by table) }
    {
        table.numbers.shrink_to_fit();
        table.groups.shrink_to_fit();
        let first = first_of(alloc, &table.names)?;
        Ok(PinRows { table, first })
    }

    /// How many pins there are.
    pub(crate) fn len(&self) -> usize
        ensures { result ≡ length self.now }
    {
        self.table.names.len()
    }

    /// Whether there is no pin.
    pub(crate) fn is_empty(&self) -> bool
        ensures { result ≡ (length self.now == 0) }
    {
        self.table.names.is_empty()
    }

    /// The pin of this number, counted from 0.
    pub(crate) fn get(&self, at: usize) -> Pin<'_>
        requires { at < length self.now }
        ensures { slice_get self.now at ≡ Some result }
    {
        let number = self.table.numbers[at] as usize;
        Pin {
            name: self.table.names.get(at),
            group: &self.table.groups[number],
        }
    }

    /// The number of the first pin of this name. `None`: there is none.
    fn place_of(&self, name: &[u8]) -> Option<usize>
        ensures { result ≡ position (λ pin. bytes_eq name.now pin.name) self.now }
    {
        match &self.first {
            Some(first) => first.find(name),
            None => first_place(&self.table.names, name),
        }
    }

    /// The first pin of this name. `None`: there is none. It takes no memory.
    pub(crate) fn find(&self, name: &[u8]) -> Option<Pin<'_>>
        ensures { result ≡ find (λ pin. bytes_eq name.now pin.name) self.now }
    {
        let at = self.place_of(name)?;
        Some(self.get(at))
    }
}
