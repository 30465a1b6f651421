//! Whether cells stand where they may, and charge no more than they may.

ghost use Rattle.std.specs.Prelude.{◌≡◌, ◌↔◌, ℕ, ◌<◌, ◌≤◌, length, slice_index_or, pos, Option, Some, IsTrue, MatchOption};
ghost use Rattle.elmore.specs.Legal.{IsWithin, IsFit, MayHave, IsLegalWith, IsLegal, IsFirstIllegal};
ghost use Rattle.elmore.specs.Placements.{IsPlacement, load_of as load_at};
ghost use Rattle.elmore.specs.Room.{room_of};

use crate::allowed::Allowed;
use crate::loads::sum_loads;
use crate::placement::Placement;
use crate::problem::Problem;
use crate::rep::Rep;
use crate::scratch::Scratch;
use crate::sums::sum_at;

/// Whether a load is within a limit, if there is one.
fn is_within_limit(limit: Option<u64>, load: u128) -> bool
    ensures { IsTrue result ↔ IsWithin limit load }
{
    match limit {
        Some(most) => load <= u128::from(most),
        None => true,
    }
}

/// Whether a repeater may stand at a node, which is a place or not and allows some repeaters, and charge this load.
fn is_fit(place: bool, allowed: &Allowed, reps: &[Rep], b: u32, load: u128) -> bool
    requires { b < length reps.now }
    ensures { IsTrue result ↔ IsFit place allowed.now reps.now b load }
{
    place && allowed.allows(b) && is_within_limit(reps[b as usize].limit, load)
}

/// Whether a node may have this cell, if there is one, and charge this load.
fn may_have(p: &Problem, v: u32, own: Option<u32>, load: u128) -> bool
    requires node { v < length p.now.tree.nodes }
    requires named { (b : ℕ) → own ≡ Some b → b < length p.now.reps }
    ensures { IsTrue result ↔ MayHave p.now v own load }
{
    let places = p.places.as_slice();
    let allowed = p.allowed.as_slice();
    match own {
        Some(b) => is_fit(
            places[v as usize],
            &allowed[v as usize],
            p.reps.as_slice(),
            b,
            load,
        ),
        None => true,
    }
}

/// Whether a node may have this cell, if there is one, and charge this load, and the driver too where it is the root.
fn is_legal_with(p: &Problem, v: u32, own: Option<u32>, load: u128) -> bool
    requires node { v < length p.now.tree.nodes }
    requires named { (b : ℕ) → own ≡ Some b → b < length p.now.reps }
    ensures { IsTrue result ↔ IsLegalWith p.now v own load }
{
    may_have(p, v, own, load) && (v != 0 || is_within_limit(p.driver.limit, load))
}

/// The first node at which the cells are not legal, by the loads of the nodes.
fn first_past(p: &Problem, cells: &[Option<u32>], loads: &[i128]) -> Option<u32>
    requires placement { IsPlacement p.now cells.now }
    requires room { length p.now.tree.nodes ≤ length loads.now }
    requires loads { (v : ℕ) → v < length p.now.tree.nodes
        → slice_index_or loads.now v (pos 0) ≡ pos (load_at p.now cells.now v) }
    ensures { MatchOption result (IsLegal p.now cells.now) (λ v. IsFirstIllegal p.now cells.now v) }
{
    'nodes: for v in 0..cells.len() {
        if !is_legal_with(p, v as u32, cells[v], sum_at(loads, v)) {
            return Some(v as u32);
        }
    }
    None
}

fn first_illegal_by(p: &Problem, cells: &[Option<u32>], loads: &mut [i128]) -> Option<u32>
    requires placement { IsPlacement p.now cells.now }
    requires room { length p.now.tree.nodes ≤ length loads.old }
    ensures { MatchOption result (IsLegal p.now cells.now) (λ v. IsFirstIllegal p.now cells.now v) }
{
    sum_loads(p.tree.nodes.as_slice(), cells, p.reps.as_slice(), loads);
    first_past(p, cells, loads)
}

/// The first node, in tree order, at which a placement is not legal: a node that has a cell and is no place, does not
/// allow this cell, or has a load beyond the cell's limit, or the root, where its load is beyond the driver's. None
/// where the placement is legal. It walks the whole net, and the scratch has room for its nodes.
pub fn first_illegal(p: &Problem, at: &Placement, scratch: &mut Scratch) -> Option<u32>
    requires placement { IsPlacement p.now at.now.cells }
    requires room { length p.now.tree.nodes ≤ room_of scratch.old }
    ensures illegal { MatchOption result (IsLegal p.now at.now.cells) (λ v. IsFirstIllegal p.now at.now.cells v) }
    ensures room { room_of scratch.new ≡ room_of scratch.old }
{
    first_illegal_by(p, at.cells.as_slice(), &mut scratch.delays)
}
