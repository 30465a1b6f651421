//! Kinds of problems, and how many of each there were.

use crate::enumerate::Good;
use elmore::Problem;

/// Of how many problems the frontier was wrong; how many had no point, one of cost 0 with cells, and three or more; how
/// many had placements of a point's cost with less slack, and of a point's slack that cost more; for how many a limit,
/// or what nodes allow, changes the frontier; how many had sinks that want an inverted signal, nodes without a sink at
/// or below them, two sinks below one node with the same wire, and six places.
#[derive(Clone, Copy, Debug)]
pub struct Kinds {
    pub wrong: u32,
    none: u32,
    free: u32,
    many: u32,
    tied_costs: u32,
    tied_slacks: u32,
    pub limited: u32,
    pub confined: u32,
    inverted: u32,
    dead: u32,
    twins: u32,
    large: u32,
}

/// Adds one where it is so.
pub fn count(number: &mut u32, so: bool) {
    *number = number.wrapping_add(u32::from(so));
}

/// Whether a placement has the cost of a point and less slack.
fn has_less_slack(all: &[Good], point: &Good) -> bool {
    all.iter()
        .any(|good| good.cost == point.cost && good.slack < point.slack)
}

/// Whether a placement has the slack of a point and costs more.
fn costs_more(all: &[Good], point: &Good) -> bool {
    all.iter()
        .any(|good| good.slack == point.slack && good.cost > point.cost)
}

/// Whether two sinks lie below one node, each at the end of the same wire.
fn has_twins(p: &Problem) -> bool {
    let nodes = p.tree.nodes.as_slice();
    let sinks = p.sinks.as_slice();
    for (v, (one, sink)) in nodes.iter().zip(sinks.iter()).enumerate() {
        for (w, (other, its)) in nodes.iter().zip(sinks.iter()).enumerate() {
            let both = v < w && sink.is_some() && its.is_some();
            if both && one.parent == other.parent && one.r == other.r && one.c == other.c {
                return true;
            }
        }
    }
    false
}

impl Kinds {
    pub const NONE: Kinds = Kinds {
        wrong: 0,
        none: 0,
        free: 0,
        many: 0,
        tied_costs: 0,
        tied_slacks: 0,
        limited: 0,
        confined: 0,
        inverted: 0,
        dead: 0,
        twins: 0,
        large: 0,
    };

    /// Counts a problem with these good placements and this frontier.
    pub fn add(&mut self, p: &Problem, all: &[Good], front: &[Good]) {
        count(&mut self.none, front.is_empty());
        let free = front.iter().any(|good| good.cost == 0 && !good.bare);
        count(&mut self.free, free);
        count(&mut self.many, front.len() > 2);
        let tied = front.iter().any(|point| has_less_slack(all, point));
        count(&mut self.tied_costs, tied);
        let tied = front.iter().any(|point| costs_more(all, point));
        count(&mut self.tied_slacks, tied);
        let sinks = p.sinks.as_slice();
        let inverts = sinks
            .iter()
            .any(|sink| sink.is_some_and(|sink| sink.inverted));
        count(&mut self.inverted, inverts);
        count(&mut self.dead, p.live.as_slice().contains(&false));
        count(&mut self.twins, has_twins(p));
        let places = p.places.as_slice();
        let size = places.iter().filter(|place| **place).count();
        count(&mut self.large, size == 6);
    }

    /// The least of all counts but that of the wrong ones.
    pub fn least(&self) -> u32 {
        let (a, b) = (self.none.min(self.free), self.many.min(self.tied_costs));
        let (c, d) = (
            self.tied_slacks.min(self.limited),
            self.confined.min(self.inverted),
        );
        let e = self.dead.min(self.twins).min(self.large);
        a.min(b).min(c).min(d).min(e)
    }
}
