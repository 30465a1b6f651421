//! Cells at a node.

ghost use Rattle.std.specs.Prelude.{◌≡◌, ◌<◌, Bool, length, IfOk, OnOk, MatchBool};
ghost use Rattle.elmore.specs.Allowances.{allowed_at, Allows};
ghost use Rattle.vg_front.specs.Branches.{list_of};
ghost use Rattle.vg_front.specs.Offers.{IsPartOf, Adds};
ghost use Rattle.vg_front.specs.Held.{AreBounded};
ghost use Rattle.vg_front.specs.Driving.{IsCelled, behind as behind_spec};
ghost use Rattle.vg_front.specs.Tries.{IsUsable, AreUsable, IsUsed};

use crate::branch::Branch;
use crate::offer::Proposal;
use crate::propose::Desk;
use crate::tries::{Site, try_all};
use elmore::{Problem, Rep};
use std::alloc::Global;
use vg_num::Memory;

/// The class behind a repeater that is reached in a class.
fn behind(rep: &Rep, odd: bool) -> bool
    ensures { result ≡ behind_spec rep.now odd }
{
    if rep.inverts { !odd } else { odd }
}

/// Whether a node allows a repeater, by its number.
fn allows(p: &Problem, node: usize, number: u32) -> bool
    requires node { node < length p.now.tree.nodes }
    ensures { MatchBool result (Allows (allowed_at p.now.allowed node) number)
        (Allows (allowed_at p.now.allowed node) number → ⊥) }
{
    p.allowed.as_slice()[node].allows(number)
}

/// Whether a node allows a repeater, by its number, that is reached in one class with the class `below` behind it.
fn is_usable(p: &Problem, node: usize, odd: bool, below: bool, number: usize) -> bool
    requires node { node < length p.now.tree.nodes }
    requires number { number < length p.now.reps }
    ensures { MatchBool result (IsUsable p.now node odd below number) (IsUsable p.now node odd below number → ⊥) }
{
    if !allows(p, node, number as u32) {
        return false;
    }
    behind(&p.reps.as_slice()[number], odd) == below
}

/// The numbers of the repeaters that a node allows and that are reached in one class with the class `below` behind
/// them, by rising resistance.
fn usable(
    alloc: Global,
    p: &Problem,
    node: usize,
    odd: bool,
    below: bool,
) -> Result<Vec<u32>, Memory>
    requires node { node < length p.now.tree.nodes }
    ensures { IfOk result (λ numbers. AreUsable p.now node odd below numbers.items) }
{
    let mut numbers = Vec::new(alloc);
    'reps: for number in 0..p.reps.len() {
        if !is_usable(p, node, odd, below, number) {
            continue 'reps;
        }
        numbers.push(number as u32)?;
    }
    Ok(numbers)
}

impl Branch {
    /// Proposes the repeaters that a place allows before the candidates of the class `below` behind them, for one class
    /// before the cells.
    fn propose_behind(
        &self,
        alloc: Global,
        p: &Problem,
        node: usize,
        odd: bool,
        below: bool,
        cap: Option<u64>,
        fresh: &mut Vec<Proposal>,
    ) -> Result<(), Memory>
        requires node { node < length p.now.tree.nodes }
        requires bounded { AreBounded (list_of self.now below) }
        ensures { OnOk result
            (Adds (IsUsed p.now node odd below cap (list_of self.now below)) fresh.old.items fresh.new.items) }
    {
        let numbers = usable(alloc, p, node, odd, below)?;
        let mut bests = vec![in alloc; None; p.reps.len()]?;
        let site = Site {
            node: node as u32,
            cap,
        };
        try_all(
            site,
            p.reps.as_slice(),
            &numbers,
            self.list(below),
            &mut bests,
            fresh,
        )?;
        Ok(())
    }

    /// Proposes all repeaters that a place allows before the candidates of both classes, for one class before the
    /// cells. Answers `Memory` where there is no room.
    pub fn propose_cells(
        &self,
        alloc: Global,
        p: &Problem,
        node: usize,
        odd: bool,
        cap: Option<u64>,
        desk: &mut Desk,
    ) -> Result<(), Memory>
        requires node { node < length p.now.tree.nodes }
        requires bounded { (o : Bool) → AreBounded (list_of self.now o) }
        ensures { OnOk result (IsPartOf (IsCelled p.now node odd cap (list_of self.now)) desk.new.made.items) }
    {
        desk.clear();
        self.propose_behind(alloc, p, node, odd, false, cap, &mut desk.fresh)?;
        self.propose_behind(alloc, p, node, odd, true, cap, &mut desk.fresh)?;
        desk.settle()?;
        Ok(())
    }
}
