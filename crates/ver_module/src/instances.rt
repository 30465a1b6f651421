//! The instances of a module.

ghost use Rattle.std.specs.Prelude.{◌≡◌, ◌<◌, ◌^◌, ◌+◌, ◌≤◌, ◌++◌, ◌∷◌, [], Some, drop, length, slice_get, IfOk, OnErr, OnOk};
ghost use Rattle.std.specs.List.{All, between};
ghost use Rattle.name_tables.specs.Distinct.{with_name};
ghost use Rattle.ver_module.specs.Flat.{pins_end};
ghost use Rattle.ver_module.specs.Netlists.{with_pin};

use crate::link::{Link, LinkRef, LinkRow, keep};
use crate::name::{MOST, number_by_guess};
use crate::place::place;
use crate::runs::Runs;
use name_tables::{Names, Texts};
use std::alloc::Global;
use std::marker::Model;
use vg_num::Memory;
use vg_scan::Span;

/// A pin of an instance.
#[derive(Drop)]
pub struct Pin<'a> {
    pub name: &'a [u8],
    /// Where the expression of its connection stands, without what is around it. Of a pin that is not connected it is
    /// empty.
    pub span: Span,
    pub link: LinkRef<'a>,
}

impl<'a> Model for Pin<'a> {
    ghost use Rattle.ver_module.specs.Links.{lent_link};
    ghost use Rattle.ver_module.specs.Netlists.{Pin as PinSpec};

    ghost Value = { PinSpec };

    ghost view = { λ pin. record { name = pin.name.now; span = pin.span; link = lent_link pin.link } };
}

/// A pin, by the number of its name.
#[derive(Clone, Copy, Drop)]
pub(crate) struct PinRow {
    pub name: u32,
    /// Where the expression of its connection begins.
    pub from: u32,
    /// Where it ends.
    pub to: u32,
    pub link: LinkRow,
}

/// An instance of a cell.
#[derive(Drop)]
pub struct Instance<'a> {
    pub name: &'a [u8],
    /// The name of its module or gate.
    pub cell: &'a [u8],
    pin_names: &'a Names,
    many: &'a [Runs],
    pins: &'a [PinRow],
}

impl<'a> Model for Instance<'a> {
    ghost use Rattle.std.specs.Prelude.{◌<◌, ◌^◌, length, map};
    ghost use Rattle.std.specs.List.{All};
    ghost use Rattle.ver_module.specs.Netlists.{Instance as InstanceSpec};
    ghost use Rattle.ver_module.specs.Flat.{IsPinRow, pin_with};

    ghost Value = { InstanceSpec };

    ghost view = { λ instance. record {
      name = instance.name.now;
      cell = instance.cell.now;
      pins = map (pin_with instance.pin_names.now instance.many.now) instance.pins.now;
    } };

    ghost invariant = { λ instance. All (IsPinRow instance.pin_names.now instance.many.now) instance.pins.now
        × (length instance.pins.now < 2 ^ 32) };
}

impl<'a> Instance<'a> {
    /// How many pins it has: fewer than 2^32.
    pub fn len(&self) -> usize
        ensures count { result ≡ length self.now.pins }
        ensures few { result < 2 ^ 32 }
    {
        self.pins.len()
    }

    /// The pin of this number.
    pub fn pin(&self, at: usize) -> Pin<'a>
        requires { at < length self.now.pins }
        ensures { slice_get self.now.pins at ≡ Some result }
    {
        let pins = self.pins;
        let row = pins[at];
        Pin {
            name: self.pin_names.name(row.name),
            span: Span {
                from: row.from as usize,
                to: row.to as usize,
            },
            link: row.link.lend(self.many),
        }
    }
}

/// An instance, by the number of its cell's name.
#[derive(Clone, Copy, Debug, PartialEq, Eq, Drop)]
pub(crate) struct InstanceRow {
    pub cell: u32,
    /// Where its pins begin among those of all instances; they end where those of the next one begin.
    pub pins: u32,
}

/// The instances of a module. Contracts see the list of them. Names stand in one buffer, each name of a cell and of a
/// pin once, and the pins of all instances in one list; the nets of links to several stand aside.
#[derive(Drop)]
pub struct Instances {
    names: Texts,
    cells: Names,
    pin_names: Names,
    rows: Vec<InstanceRow>,
    /// The nets of each link to several.
    many: Vec<Runs>,
    pins: Vec<PinRow>,
}

impl Model for Instances {
    ghost use Rattle.std.specs.Prelude.{◌≡◌, ◌<◌, List, length};
    ghost use Rattle.ver_module.specs.Netlists.{Instance as InstanceSpec};
    ghost use Rattle.ver_module.specs.Flat.{AreInstances, instances_with};

    ghost Value = { List InstanceSpec };

    ghost view = { λ all. instances_with
        (record { cells = all.cells; pin_names = all.pin_names; many = all.many.items; pins = all.pins.items })
        all.names all.rows.items };

    ghost invariant = { λ all. AreInstances
        (record { cells = all.cells; pin_names = all.pin_names; many = all.many.items; pins = all.pins.items })
        all.names all.rows.items };
}

/// Where the pins of the instance of this number end, where those of all end here.
fn end_of(rows: &[InstanceRow], at: usize, all: usize) -> usize
    requires { at < length rows.now }
    ensures { result ≡ pins_end all (drop (at + 1) rows.now) }
{
    match rows.get(at + 1) {
        Some(next) => next.pins as usize,
        None => all,
    }
}

/// The pins from one place up to another.
fn part(pins: &[PinRow], from: usize, to: usize) -> &[PinRow]
    requires few { length pins.now < 2 ^ 32 }
    requires from { from ≤ to }
    requires to { to ≤ length pins.now }
    ensures { result.now ≡ between from to pins.now }
{
    &pins[from..to]
}

/// The number of the name of the pin that comes after these. A new name is put last. Answers `Memory` where there is no
/// room; nothing changes then.
fn pin_number(names: &mut Names, before: &[PinRow], name: &[u8]) -> Result<u32, Memory>
    ensures number { IfOk result (λ id. slice_get names.new id ≡ Some name.now) }
    ensures names { OnOk result (names.new ≡ with_name names.old name.now) }
    ensures unchanged { OnErr result (names.new ≡ names.old) }
{
    // Pins mostly come in the order in which their names came first, and begin again with the next instance.
    let next = match before.last() {
        Some(pin) => pin.name.wrapping_add(1),
        None => 0,
    };
    let id = number_by_guess(names, &[next, 0], name)?;
    Ok(id)
}

/// The number of the name of the cell of the instance that comes after these. A new name is put last. Answers `Memory`
/// where there is no room; nothing changes then.
fn cell_number(names: &mut Names, before: &[InstanceRow], name: &[u8]) -> Result<u32, Memory>
    ensures number { IfOk result (λ id. slice_get names.new id ≡ Some name.now) }
    ensures names { OnOk result (names.new ≡ with_name names.old name.now) }
    ensures unchanged { OnErr result (names.new ≡ names.old) }
{
    // Instances of one cell often stand together, or cells come in the order in which their names came first.
    let last = match before.last() {
        Some(instance) => instance.cell,
        None => 0,
    };
    let id = number_by_guess(names, &[last, last.wrapping_add(1)], name)?;
    Ok(id)
}

/// Puts an instance last, with its name. Answers `Memory` where there is no room; nothing changes then.
fn push_row(
    names: &mut Texts,
    rows: &mut Vec<InstanceRow>,
    name: &[u8],
    row: InstanceRow,
) -> Result<(), Memory>
    ensures name { OnOk result (names.new ≡ names.old ++ name.now ∷ []) }
    ensures row { OnOk result (rows.new.items ≡ rows.old.items ++ row ∷ []) }
    ensures same_names { OnErr result (names.new ≡ names.old) }
    ensures same_rows { OnErr result (rows.new.items ≡ rows.old.items) }
{
    let Ok(()) = rows.push(row) else {
        return Err(Memory);
    };
    match names.push(name) {
        Ok(()) => Ok(()),
        Err(_) => {
            rows.pop();
            Err(Memory)
        }
    }
}

impl Instances {
    /// No instances.
    pub fn new(alloc: Global) -> Instances
        ensures { result ≡ [] }
    {
        Instances {
            names: Texts::new(alloc),
            cells: Names::new(alloc),
            pin_names: Names::new(alloc),
            rows: Vec::new(alloc),
            many: Vec::new(alloc),
            pins: Vec::new(alloc),
        }
    }

    /// How many instances there are: fewer than 2^32.
    pub fn len(&self) -> usize
        ensures count { result ≡ length self.now }
        ensures few { result < 2 ^ 32 }
    {
        self.rows.len()
    }

    /// A law: there are fewer than 2^32 instances, each with fewer pins than that.
    pub(crate) fn are_few(&self)
        ensures instances { length self.now < 2 ^ 32 }
        ensures pins { All (λ i. length i.pins < 2 ^ 32) self.now }
    {
        let _ = &self.rows;
    }

    /// The instance of this number.
    pub fn get(&self, at: usize) -> Instance<'_>
        requires { at < length self.now }
        ensures { slice_get self.now at ≡ Some result }
    {
        let row = self.rows[at];
        let end = end_of(&self.rows, at, self.pins.len());
        Instance {
            name: self.names.get(at),
            cell: self.cells.name(row.cell),
            pin_names: &self.pin_names,
            many: &self.many,
            pins: part(&self.pins, row.pins as usize, end),
        }
    }

    /// Puts an instance without pins last. Answers `Memory` where there is no room, as where there are 2^32 - 1
    /// instances; nothing changes then.
    pub fn push(&mut self, name: &[u8], cell: &[u8]) -> Result<(), Memory>
        ensures last { OnOk result (self.new ≡ self.old
            ++ (record { name = name.now; cell = cell.now; pins = [] }) ∷ []) }
        ensures unchanged { OnErr result (self.new ≡ self.old) }
    {
        if MOST <= self.rows.len() {
            return Err(Memory);
        }
        let cell = cell_number(&mut self.cells, &self.rows, cell)?;
        let pins = self.pins.len() as u32;
        let row = InstanceRow { cell, pins };
        let Ok(()) = push_row(&mut self.names, &mut self.rows, name, row) else {
            return Err(Memory);
        };
        Ok(())
    }

    /// Puts a pin last in the last instance, if there is one. Answers `Memory` where there is no room, as where there
    /// are 2^32 - 1 pins, or where the expression stands 2^32 bytes or more behind the text's beginning; nothing
    /// changes then.
    pub fn push_pin(&mut self, name: &[u8], span: Span, link: Link) -> Result<(), Memory>
        ensures last { OnOk result (self.new
            ≡ with_pin self.old (record { name = name.now; span = span; link = link })) }
        ensures unchanged { OnErr result (self.new ≡ self.old) }
    {
        if MOST <= self.pins.len() {
            return Err(Memory);
        }
        let from = place(span.from)?;
        let to = place(span.to)?;
        let name = pin_number(&mut self.pin_names, &self.pins, name)?;
        let link = keep(&mut self.many, link)?;
        let row = PinRow {
            name,
            from,
            to,
            link,
        };
        let Ok(()) = self.pins.push(row) else {
            return Err(Memory);
        };
        Ok(())
    }
}
