//! The pins on each net that has some.

ghost use Rattle.std.specs.Prelude.{◌≡◌, ℕ, ◌==◌, ◌<◌, ◌+◌, ◌∷◌, ◌++◌, [], length, map, take, if◌then◌else◌};
ghost use Rattle.std.specs.Prelude.{slice_index_or, IfOk, OnOk};
ghost use Rattle.std.specs.List.{range_with_len};
ghost use Rattle.ver_module.specs.Netlists.{IsSound};
ghost use Rattle.ver_net.specs.Connections.{pins_on, terminals_from, terminals_of};
ghost use Rattle.ver_net.specs.Tables.{AreKept, row_kept};

use crate::pin_ref::PinRef;
use std::alloc::Global;
use std::collections::BTreeMap;
use std::marker::Model;
use ver_module::{LinkRef, Module};
use vg_num::Memory;

/// The pins on each net, where most nets have none. Contracts see a list with one element for each net.
///
/// A net without a pin takes no room.
#[derive(Drop)]
pub(crate) struct SparseRows {
    /// How many nets there are.
    count: usize,
    /// The pins on each net that has some.
    rows: BTreeMap<u32, Vec<PinRef>>,
}

impl Model for SparseRows {
    ghost use Rattle.std.specs.Prelude.{List, map};
    ghost use Rattle.std.specs.List.{range_with_len};
    ghost use Rattle.ver_net.specs.declared.pin_ref.PinRef.{PinRef};
    ghost use Rattle.ver_net.specs.Tables.{row_kept};

    ghost Value = { List (List PinRef) };

    ghost view = { λ rows. map (row_kept rows.rows) (range_with_len 0 rows.count) };
}

/// Puts a pin last in the row of its net.
fn keep(
    alloc: Global,
    rows: &mut BTreeMap<u32, Vec<PinRef>>,
    net: u32,
    pin: PinRef,
) -> Result<(), Memory>
    ensures { OnOk result ((n : ℕ) → row_kept rows.new n
        ≡ (if n == net then row_kept rows.old net ++ pin ∷ [] else row_kept rows.old n)) }
{
    let row = rows.entry(net)?.or_insert(Vec::new(alloc));
    row.push(pin)?;
    Ok(())
}

/// Puts the pins of an instance last in the rows of their nets.
fn keep_instance(
    alloc: Global,
    netlist: &Module,
    at: usize,
    rows: &mut BTreeMap<u32, Vec<PinRef>>,
) -> Result<(), Memory>
    requires instance { at < length netlist.now.instances }
    requires sound { IsSound netlist.now }
    requires kept { AreKept (terminals_from 0 (take at netlist.now.instances)) rows.old }
    ensures { OnOk result (AreKept (terminals_from 0 (take (at + 1) netlist.now.instances)) rows.new) }
{
    let instance = netlist.instance(at);
    'pin: for pin in 0..instance.len() {
        if let LinkRef::One(net) = instance.pin(pin).link {
            let pin_ref = PinRef {
                instance: at as u32,
                pin: pin as u32,
            };
            keep(alloc, rows, net, pin_ref)?;
        }
    }
    Ok(())
}

/// The pins on each net that has some.
fn kept(alloc: Global, netlist: &Module) -> Result<BTreeMap<u32, Vec<PinRef>>, Memory>
    ensures { IfOk result (AreKept (terminals_of netlist.now)) }
{
    netlist.is_sound();
    let mut rows = BTreeMap::new(alloc);
    'instance: for at in 0..netlist.instance_count() {
        keep_instance(alloc, netlist, at, &mut rows)?;
    }
    Ok(rows)
}

impl SparseRows {
    /// The pins on each net, put there in one pass. Answers `Memory` where there is no room.
    pub(crate) fn of(alloc: Global, netlist: &Module) -> Result<SparseRows, Memory>
        ensures { IfOk result (λ rows.
            rows ≡ map (pins_on netlist.now) (range_with_len 0 (length netlist.now.nets))) }
    {
        let count = netlist.net_count();
        let rows = kept(alloc, netlist)?;
        Ok(SparseRows { count, rows })
    }

    /// How many nets there are.
    pub(crate) fn len(&self) -> usize
        ensures { result ≡ length self.now }
    {
        self.count
    }

    /// The pins on a net, in the order of the text.
    pub(crate) fn row(&self, net: u32) -> &[PinRef]
        requires { net < length self.now }
        ensures { result.now ≡ slice_index_or self.now net [] }
    {
        match self.rows.get(&net) {
            Some(row) => row.as_slice(),
            None => &[],
        }
    }
}
