ghost use Rattle.std.specs.Prelude.{◌≡◌, ℕ, true, false, length, is_some, slice_index_or, IfOk, IfSome};
ghost use Rattle.std.specs.List.{list_any};
ghost use Rattle.elmore.specs.Allowances.{AreAllowances};
ghost use Rattle.elmore.specs.Problems.{live_nodes as live_nodes_of, is_sink, AreRising, ArePlaces, IsProblemWithin, IsMadeWhere};

use crate::allowed::Allowed;
use crate::limits::is_within;
use crate::live::Marks;
use crate::parts::{Driver, Sink};
use crate::rep::Rep;
use crate::tree::Tree;
use std::alloc::Global;
use vg_num::{Memory, Row};

/// A routed net with its driver, its sinks, the places where a cell may stand, the repeaters to choose from, and which
/// of them each node allows.
///
/// The lists have one element for each node of the tree. At least one sink exists. A node is live where a sink is at it
/// or below it. A place is no sink and not the root, and has a sink strictly below. The repeaters stand by rising
/// resistance. What a node allows names some of them by rising numbers, or allows all. All limits hold under which no
/// sum is too large to be computed.
#[derive(Drop)]
pub struct Problem {
    pub tree: Tree,
    pub driver: Driver,
    pub sinks: Row<Option<Sink>>,
    pub places: Row<bool>,
    pub live: Row<bool>,
    pub reps: Row<Rep>,
    pub allowed: Row<Allowed>,
    pub ghost sinks_each: { length sinks ≡ length tree.nodes },
    pub ghost some_sink: { list_any is_some sinks ≡ true },
    pub ghost places_are: { ArePlaces tree.nodes sinks places },
    pub ghost live_are: { live ≡ live_nodes_of tree.nodes sinks },
    pub ghost rising: { AreRising reps },
    pub ghost allowed_are: { AreAllowances (length tree.nodes) (length reps) allowed },
    pub ghost within: { IsProblemWithin tree.nodes driver sinks places reps },
}

impl Problem {
    ghost use Rattle.elmore.specs.Problems.{places as places_of};

    /// The problem of these parts. A free node with a sink strictly below becomes a place. The sinks and the free
    /// nodes have one element for each node, at least one sink exists, the root and the sinks are not free, and the
    /// repeaters stand by rising resistance. For each node `allowed` says which of them it allows: all, or some by
    /// rising numbers.
    ///
    /// None where a limit does not hold: at most 65,536 nodes and 256 repeaters; all resistors together at most 10^12
    /// mΩ; all capacitors, with the greatest input capacitance of the repeaters at each place, at most 10^11 aF; the
    /// driver's and each repeater's resistance at most 10^9 mΩ; a repeater's delay at most 10^18 zs and its cost at
    /// most 10^12 thousandths; the driver's delay and arrival and each required time at most 10^23 zs in size.
    ///
    /// Answers `Memory` where there is no room for the places and the live nodes.
    pub fn new(
        alloc: Global,
        tree: Tree,
        driver: Driver,
        sinks: Row<Option<Sink>>,
        free: &[bool],
        reps: Row<Rep>,
        allowed: Row<Allowed>,
    ) -> Result<Option<Problem>, Memory>
        requires sinks_each { length sinks ≡ length tree.nodes }
        requires free_each { length free.now ≡ length tree.nodes }
        requires some_sink { list_any is_some sinks ≡ true }
        requires root { slice_index_or free.now 0 false ≡ false }
        requires no_sink { (v : ℕ) → is_sink sinks v ≡ true → slice_index_or free.now v false ≡ false }
        requires rising { AreRising reps }
        requires allowed { AreAllowances (length tree.nodes) (length reps) allowed }
        ensures within { IfOk result (λ made.
            IsMadeWhere made (IsProblemWithin tree.nodes driver sinks (places_of tree.nodes sinks free.now) reps)) }
        ensures nodes { IfOk result (λ made. IfSome made (λ problem. problem.tree.nodes ≡ tree.nodes)) }
        ensures driver { IfOk result (λ made. IfSome made (λ problem. problem.driver ≡ driver)) }
        ensures sinks { IfOk result (λ made. IfSome made (λ problem. problem.sinks ≡ sinks)) }
        ensures places { IfOk result (λ made.
            IfSome made (λ problem. problem.places ≡ places_of tree.nodes sinks free.now)) }
        ensures reps { IfOk result (λ made. IfSome made (λ problem. problem.reps ≡ reps)) }
        ensures allowed { IfOk result (λ made. IfSome made (λ problem. problem.allowed ≡ allowed)) }
    {
        let marks = Marks::of(alloc, tree.nodes.as_slice(), sinks.as_slice(), free)?;
        if !is_within(
            tree.nodes.as_slice(),
            &driver,
            sinks.as_slice(),
            marks.places.as_slice(),
            reps.as_slice(),
        ) {
            return Ok(None);
        }
        Ok(Some(Problem {
            tree,
            driver,
            sinks,
            places: marks.places,
            live: marks.live,
            reps,
            allowed,
        }))
    }
}
