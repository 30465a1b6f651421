//! The rows of a constraints text, and look-ups in them.

ghost use Rattle.std.specs.Prelude.{◌≡◌, IfOk, option_copied};
ghost use Rattle.vg_cons.specs.Statements.{default};
ghost use Rattle.vg_cons.specs.Views.{Adds, Begins, added_as, stored_as, as_statement};
ghost use Rattle.vg_cons.specs.Rows.{Rows, required_of, arrival_of, wants_inverted_of, drive_of, load_of, is_blocked_of, allowed_of, in_box_of};
ghost use Rattle.vg_cons.specs.Growth.{no_rows};
ghost use Rattle.vg_cons.specs.Named.{named};

use crate::boxes::Boxes;
use crate::fault::ConsKind;
use crate::format::Format;
use crate::node::NodeRef;
use crate::row::Row;
use crate::tables::{NodeRows, NodeSet, PortRows, buckets_for};
use std::alloc::Global;
use std::marker::Model;
use vg_num::{Memory, Row as Cells};
use vg_scan::Name;

/// The version of a constraints text, and its rows by kind. Contracts see the record `Rows`, with the rows in the order
/// of the text.
pub struct Constraints {
    format: Option<Format>,
    default: Option<i128>,
    required: NodeRows<i128>,
    arrival: NodeRows<i128>,
    want: NodeSet,
    drive: PortRows<(u64, i128)>,
    load: PortRows<u64>,
    block: NodeSet,
    allow: NodeRows<Cells<Name>>,
    boxes: Boxes,
}

impl Model for Constraints {
    ghost Value = { Rows };

    ghost view = { λ cons. record {
      format = cons.format;
      default = cons.default;
      required = cons.required;
      arrival = cons.arrival;
      want = cons.want;
      drive = cons.drive;
      load = cons.load;
      block = cons.block;
      allow = cons.allow;
      boxes = cons.boxes;
    } };
}

impl Drop for Constraints {
    // Written out, so that it is one step in the proof of whoever drops it.
    fn drop(self) {
        let Constraints {
            format: _format,
            default: _default,
            required: _required,
            arrival: _arrival,
            want: _want,
            drive: _drive,
            load: _load,
            block: _block,
            allow: _allow,
            boxes: _boxes,
        } = self;
    }
}

impl Constraints {
    /// No rows, with room for those of a text of so many bytes. Answers `Memory` where there is none.
    pub(crate) fn new(alloc: Global, bytes: usize) -> Result<Constraints, Memory>
        ensures { IfOk result (λ cons. cons ≡ no_rows) }
    {
        let many = buckets_for(bytes);
        // Of each other kind there are mostly few rows: of drivers, of ports, of single nodes.
        let few = buckets_for(bytes / 16);
        Ok(Constraints {
            format: None,
            default: None,
            required: NodeRows::new(alloc, many)?,
            arrival: NodeRows::new(alloc, few)?,
            want: NodeSet::new(alloc, few)?,
            drive: PortRows::new(alloc, few)?,
            load: PortRows::new(alloc, few)?,
            block: NodeSet::new(alloc, many)?,
            allow: NodeRows::new(alloc, few)?,
            boxes: Boxes::new(alloc),
        })
    }

    /// The version, once a heading has named it.
    pub(crate) fn format(&self) -> Option<Format>
        ensures { result ≡ self.now.format }
    {
        self.format
    }

    /// Takes the version that a heading names.
    ///
    /// Answers `Version` where it names none.
    pub(crate) fn begin(&mut self, heading: Option<Format>) -> Result<(), ConsKind>
        ensures { Begins result self.old self.new heading }
    {
        let Some(format) = heading else {
            return Err(ConsKind::Version);
        };
        self.format = Some(format);
        Ok(())
    }

    /// Adds a row, the last of its kind.
    ///
    /// Answers `Twice` where there is one of the same kind and name, and `Memory` where there is no room.
    pub(crate) fn add(&mut self, row: Row) -> Result<(), ConsKind>
        ensures { Adds result self.old self.new (as_statement row) }
    {
        match row {
            Row::Default(time) => self.add_default(time),
            Row::Required(pin, time) => check_fresh(self.required.insert(NodeRef::of(&pin), time)),
            Row::Arrival(pin, time) => check_fresh(self.arrival.insert(NodeRef::of(&pin), time)),
            Row::Want(pin) => check_fresh(self.want.insert(NodeRef::of(&pin))),
            Row::Drive(port, drive) => check_fresh(self.drive.insert(&port, drive)),
            Row::Load(port, load) => check_fresh(self.load.insert(&port, load)),
            Row::Block(node) => check_fresh(self.block.insert(NodeRef::of(&node))),
            Row::Allow(node, cells) => check_fresh(
                self.allow
                    .insert(NodeRef::of(&node), Cells::from_vec(cells)),
            ),
            Row::BlockBox(corners) => check_room(self.boxes.add(corners)),
        }
    }

    /// Readies the rows for look-ups. Answers `Memory` where there is no room.
    pub(crate) fn arrange(&mut self) -> Result<(), Memory>
        ensures { self.new ≡ self.old }
    {
        self.boxes.arrange()
    }

    fn add_default(&mut self, time: i128) -> Result<(), ConsKind>
        ensures { Adds result self.old self.new (default time) }
    {
        if self.default.is_some() {
            return Err(ConsKind::Twice);
        }
        self.default = Some(time);
        Ok(())
    }
}

/// What inserting a row says of it: its name was new, was there, or found no room.
fn check_fresh(fresh: Result<bool, Memory>) -> Result<(), ConsKind>
    ensures { result ≡ added_as fresh }
{
    match fresh {
        Ok(true) => Ok(()),
        Ok(false) => Err(ConsKind::Twice),
        Err(Memory) => Err(ConsKind::Memory),
    }
}

/// What storing a row that may be given again says of it: there was room, or none.
fn check_room(stored: Result<(), Memory>) -> Result<(), ConsKind>
    ensures { result ≡ stored_as stored }
{
    match stored {
        Ok(()) => Ok(()),
        Err(Memory) => Err(ConsKind::Memory),
    }
}

/// The time by which a signal has to be at a pin, in zeptoseconds: the pin's own, else the default. `None`: neither is
/// given.
pub fn required(cons: &Constraints, pin: NodeRef<'_>) -> Option<i128>
    ensures { result ≡ required_of cons.now (named pin.entry) }
{
    cons.required.get(pin).copied().or(cons.default)
}

/// When a signal is at a pin, in zeptoseconds: 0 where nothing is given.
pub fn arrival(cons: &Constraints, pin: NodeRef<'_>) -> i128
    ensures { result ≡ arrival_of cons.now (named pin.entry) }
{
    cons.arrival.get(pin).copied().unwrap_or(0)
}

/// Whether a pin wants the inverted signal.
pub fn wants_inverted(cons: &Constraints, pin: NodeRef<'_>) -> bool
    ensures { result ≡ wants_inverted_of cons.now (named pin.entry) }
{
    cons.want.contains(pin)
}

/// The resistance (milliohms) and the delay (zeptoseconds) of what drives a port: both 0 where nothing is given.
pub fn port_drive(cons: &Constraints, port: &Name) -> (u64, i128)
    ensures { result ≡ drive_of cons.now port.now }
{
    cons.drive.get(port).copied().unwrap_or((0, 0))
}

/// The capacitance that a port drives, in attofarads: 0 where nothing is given.
pub fn port_load(cons: &Constraints, port: &Name) -> u64
    ensures { result ≡ load_of cons.now port.now }
{
    cons.load.get(port).copied().unwrap_or(0)
}

/// Whether nothing may be placed at a node.
pub fn is_blocked(cons: &Constraints, node: NodeRef<'_>) -> bool
    ensures { result ≡ is_blocked_of cons.now (named node.entry) }
{
    cons.block.contains(node)
}

/// The cells that a row names for a node, in its order: no other may be placed there. `None`: no row names any, and all
/// may be. It takes no memory.
pub fn allows<'a>(cons: &'a Constraints, node: NodeRef<'_>) -> Option<&'a [Name]>
    ensures { option_copied result ≡ allowed_of cons.now (named node.entry) }
{
    match cons.allow.get(node) {
        Some(cells) => Some(cells.as_slice()),
        None => None,
    }
}

/// Whether a box has the point (x, y) inside or on its border; both are in thousandths. It takes no memory.
pub fn in_box(cons: &Constraints, x: i128, y: i128) -> bool
    ensures { result ≡ in_box_of cons.now (x, y) }
{
    cons.boxes.hold((x, y))
}
