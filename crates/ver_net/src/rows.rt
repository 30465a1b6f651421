//! The pins on each net.

ghost use Rattle.std.specs.Prelude.{◌≡◌, ◌<◌, ◌≤◌, ◌+◌, ◌*◌, ◌↔◌, [], length, map, slice_index_or, IfOk, IsTrue};
ghost use Rattle.std.specs.List.{range_with_len, sum_by};
ghost use Rattle.ver_net.specs.Connections.{pins_on};
ghost use Rattle.ver_net.specs.Rows.{rows_by};

use crate::dense::DenseRows;
use crate::pin_ref::PinRef;
use crate::sparse::SparseRows;
use std::alloc::Global;
use ver_module::Module;
use vg_num::Memory;

/// For so many nets there is always room.
const FEW: usize = 65_536;

/// How many nets there may be for each pin, where every net has a row.
const NETS_FOR_A_PIN: usize = 4;

/// The pins on each net. What they take follows how many pins there are, however many nets are declared.
#[derive(Drop)]
pub(crate) enum Rows {
    /// Every net has a row.
    Dense(DenseRows),
    /// Only the nets with pins have one.
    Sparse(SparseRows),
}

/// How many pins all instances have.
fn pin_count(netlist: &Module) -> usize
    ensures { result ≡ sum_by (λ i. length i.pins) netlist.now.instances }
{
    netlist.is_sound();
    let mut count = 0usize;
    'instance: for at in 0..netlist.instance_count() {
        count += netlist.instance(at).len();
    }
    count
}

/// Whether nets are few beside so many pins, so that each may have a row.
fn are_few(nets: usize, pins: usize) -> bool
    ensures { IsTrue result ↔ nets ≤ 4 * pins + 65536 }
{
    nets <= pins.saturating_mul(NETS_FOR_A_PIN).saturating_add(FEW)
}

impl Rows {
    /// The pins on each net. Answers `Memory` where there is no room, as where 2^32 pins or more are linked to one net
    /// each.
    pub(crate) fn of(alloc: Global, netlist: &Module) -> Result<Rows, Memory>
        ensures { IfOk result (λ rows.
            rows_by rows ≡ map (pins_on netlist.now) (range_with_len 0 (length netlist.now.nets))) }
    {
        if are_few(netlist.net_count(), pin_count(netlist)) {
            let rows = DenseRows::of(alloc, netlist)?;
            Ok(Rows::Dense(rows))
        } else {
            let rows = SparseRows::of(alloc, netlist)?;
            Ok(Rows::Sparse(rows))
        }
    }

    /// How many nets there are.
    pub(crate) fn len(&self) -> usize
        ensures { result ≡ length (rows_by self.now) }
    {
        match self {
            Rows::Dense(rows) => rows.len(),
            Rows::Sparse(rows) => rows.len(),
        }
    }

    /// The pins on a net, in the order of the text.
    pub(crate) fn row(&self, net: u32) -> &[PinRef]
        requires { net < length (rows_by self.now) }
        ensures { result.now ≡ slice_index_or (rows_by self.now) net [] }
    {
        match self {
            Rows::Dense(rows) => rows.row(net),
            Rows::Sparse(rows) => rows.row(net),
        }
    }
}
