//! What a net is without its constraints.

ghost use Rattle.std.specs.Prelude.{◌≡◌, ◌<◌, ◌≤◌, ℕ, ℤ, None, Some, length, slice_index_or};
ghost use Rattle.std.specs.List.{All};
ghost use Rattle.elmore.specs.Problems.{IsDriverWithin, IsSmall};
ghost use Rattle.elmore.specs.Trees.{IsWithinLimits};

use crate::names::TreeNames;
use elmore::{Driver, Tree};
use ver_net::PinRef;
use vg_num::Row;

/// What a net is whatever the constraints ask for: its tree with the loads of its sinks, its driver, the names of the
/// tree's nodes, and its sinks in tree order, at least one.
#[derive(Drop)]
pub struct BareNet {
    pub tree: Tree,
    pub driver: Driver,
    pub names: TreeNames,
    /// The nodes of the tree that are sinks.
    pub sinks: Row<u32>,
    /// For each sink the pin of the netlist that it is; a port is none.
    pub pins: Row<Option<PinRef>>,
    /// For each sink when the signal has to be there (zs), where the constraints say so.
    pub required: Row<Option<i128>>,
    pub ghost few: { length tree.nodes ≤ 65536 },
    pub ghost limits: { IsWithinLimits tree.nodes },
    pub ghost drives: { IsDriverWithin driver },
    pub ghost named: { length names ≡ length tree.nodes },
    pub ghost some_sink: { 0 < length sinks },
    pub ghost within: { All (λ u. u < length tree.nodes) sinks },
    pub ghost each_pin: { length pins ≡ length sinks },
    pub ghost each_time: { length required ≡ length sinks },
    pub ghost times: { (i : ℕ) (time : ℤ) → slice_index_or required i None ≡ Some time → IsSmall time },
}
