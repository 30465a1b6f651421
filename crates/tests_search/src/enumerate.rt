//! All placements of a net, one after the other.

ghost use Rattle.std.specs.Prelude.{◌≡◌, ◌<◌, ◌≤◌, length};
ghost use Rattle.elmore.specs.Placements.{IsPlacement};
ghost use Rattle.elmore.specs.Room.{room_of};

use crate::problems::placement_of;
use elmore::{Placement, Problem, Scratch, cost, first_illegal, first_wrong, load_of, slack};
use std::alloc::Global;
use std::test::Fail;

/// What a good placement comes to: its slack (zs), the load of its root (aF), the cost of its cells (thousandths), and
/// whether it has none.
#[derive(Clone, Copy)]
pub struct Good {
    pub slack: i128,
    pub load: u128,
    pub cost: u64,
    pub bare: bool,
}

/// The slack of a placement and the load of its root, or none where it is not good.
fn figures(p: &Problem, at: &Placement, scratch: &mut Scratch) -> Option<(i128, u128)>
    requires placement { IsPlacement p.now at.now.cells }
    requires some { 0 < length p.now.tree.nodes }
    requires room { length p.now.tree.nodes ≤ room_of scratch.old }
{
    if first_wrong(p, at, scratch).is_some() {
        return None;
    }
    match first_illegal(p, at, scratch) {
        Some(_) => None,
        None => Some((slack(p, at, scratch), load_of(p, at, 0, scratch))),
    }
}

/// What the placement of these cells comes to, or none where it is not good.
pub fn judged(alloc: Global, p: &Problem, cells: &[Option<u32>]) -> Result<Option<Good>, Fail> {
    let n = p.tree.nodes.len();
    if n == 0 {
        return Err("no node".into());
    }
    let at = placement_of(alloc, n, p.reps.len(), cells)?;
    let mut scratch = Scratch::new(alloc, n)?;
    let Some((slack, load)) = figures(p, &at, &mut scratch) else {
        return Ok(None);
    };
    let bare = cells.iter().all(|cell| cell.is_none());
    let cost = cost(p, &at);
    Ok(Some(Good {
        slack,
        load,
        cost,
        bare,
    }))
}

/// The next placement with cells at free nodes, of which the first changes fastest. Answers whether there is one.
fn advance(cells: &mut [Option<u32>], free: &[bool], reps: u32) -> bool {
    for (cell, free) in cells.iter_mut().zip(free.iter()) {
        if *free {
            let next = match *cell {
                None => 0,
                Some(b) => b.wrapping_add(1),
            };
            if next < reps {
                *cell = Some(next);
                return true;
            }
            *cell = None;
        }
    }
    false
}

/// How many placements a net has at most: six free nodes, each of which has one of three repeaters or none.
const MOST: u32 = 4096;

/// What all good placements with cells at free nodes come to.
pub fn all_good(alloc: Global, p: &Problem, free: &[bool]) -> Result<Vec<Good>, Fail> {
    let reps = u32::try_from(p.reps.len()).map_err(|_| "too many repeaters")?;
    let mut cells = vec![in alloc; None; free.len()]?;
    let mut all = Vec::new(alloc);
    for _turn in 0..MOST {
        if let Some(good) = judged(alloc, p, cells.as_slice())? {
            all.push(good)?;
        }
        if !advance(&mut cells, free, reps) {
            return Ok(all);
        }
    }
    Err("too many placements".into())
}
