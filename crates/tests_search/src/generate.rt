//! Problems at random, with many ties.

ghost use Rattle.std.specs.Prelude.{◌<◌};

use crate::draft::{BARE_ROOT, Draft};
use crate::problems::Choice;
use elmore::{Driver, Node, Rep, Sink};
use std::alloc::{AllocError, Global};
use tests_random::Random;

/// The numbers that are drawn: how many there are, and what one is of resistances (mΩ) and of capacitances (aF).
#[derive(Clone, Copy)]
struct Grain {
    count: u64,
    r: u64,
    c: u64,
}

/// Few numbers, so that many sums are equal; many; and large ones.
static GRAINS: [Grain; 4] = [
    Grain {
        count: 3,
        r: 1,
        c: 1,
    },
    Grain {
        count: 5,
        r: 1,
        c: 1,
    },
    Grain {
        count: 1000,
        r: 1,
        c: 1,
    },
    Grain {
        count: 1000,
        r: 1_000_000,
        c: 1_000_000,
    },
];

impl Grain {
    fn draw(random: &mut Random) -> Grain {
        GRAINS[random.draw(4) as usize]
    }

    /// A number below so many.
    fn number(self, random: &mut Random) -> u64 {
        random.draw(self.count.max(1))
    }

    fn resistance(self, random: &mut Random) -> u64 {
        self.number(random).wrapping_mul(self.r)
    }

    fn capacitance(self, random: &mut Random) -> u64 {
        self.number(random).wrapping_mul(self.c)
    }

    /// A time like the delay of one resistor.
    fn time(self, random: &mut Random) -> u64 {
        self.resistance(random)
            .wrapping_mul(self.capacitance(random))
    }

    /// A small step from one resistance to the next, or none.
    fn step(self, random: &mut Random) -> u64 {
        let step = random.draw(self.count / 4 + 1);
        step.wrapping_mul(random.draw(2)).wrapping_mul(self.r)
    }

    /// A limit like the loads that occur, one of so many times.
    fn limit(self, random: &mut Random, chances: u64) -> Option<u64>
        requires { 0 < chances }
    {
        let load = self
            .capacitance(random)
            .wrapping_add(self.capacitance(random));
        if random.hits(chances) {
            Some(load)
        } else {
            None
        }
    }
}

/// How the nodes hang together.
#[derive(Clone, Copy)]
enum Shape {
    Chain,
    Star,
    Forks,
    Tree,
}

impl Shape {
    fn draw(random: &mut Random) -> Shape {
        match random.draw(4) {
            0 => Shape::Chain,
            1 => Shape::Star,
            2 => Shape::Forks,
            _ => Shape::Tree,
        }
    }

    /// The node above `v`.
    fn parent(self, random: &mut Random, v: u32) -> u32 {
        match self {
            Shape::Chain => v.saturating_sub(1),
            Shape::Star => v.saturating_sub(1).min(1),
            Shape::Forks => v.saturating_sub(1) / 2,
            Shape::Tree => random.draw(u64::from(v.max(1))) as u32,
        }
    }
}

/// So many nodes that hang together.
fn draw_nodes(
    alloc: Global,
    random: &mut Random,
    grain: Grain,
    size: u32,
) -> Result<Vec<Node>, AllocError> {
    let shape = Shape::draw(random);
    let mut nodes = vec![in alloc; BARE_ROOT]?;
    for v in 1..size {
        nodes.push(Node {
            parent: shape.parent(random, v),
            r: grain.resistance(random),
            c: u128::from(grain.capacitance(random)),
        })?;
    }
    Ok(nodes)
}

/// Which polarity the sinks want.
#[derive(Clone, Copy)]
enum Wish {
    Plain,
    Inverted,
    Mixed,
}

impl Wish {
    fn draw(random: &mut Random) -> Wish {
        match random.draw(6) {
            0 => Wish::Inverted,
            1 => Wish::Mixed,
            _ => Wish::Plain,
        }
    }

    /// A sink that wants it.
    fn sink(self, random: &mut Random, grain: Grain) -> Sink {
        let inverted = match self {
            Wish::Plain => false,
            Wish::Inverted => true,
            Wish::Mixed => random.hits(2),
        };
        Sink {
            required: i128::from(grain.time(random)),
            inverted,
        }
    }
}

/// The sinks: one at the last node, and some at other ends and between. An end without one is a dead branch.
fn draw_sinks(
    alloc: Global,
    random: &mut Random,
    grain: Grain,
    nodes: &[Node],
) -> Result<Vec<Option<Sink>>, AllocError> {
    let wish = Wish::draw(random);
    let mut sinks = Vec::new(alloc);
    for v in 0..nodes.len() {
        let is_last = v == nodes.len().saturating_sub(1);
        let is_end = !nodes.iter().any(|node| node.parent as usize == v);
        let chosen = if is_end {
            !random.hits(4)
        } else {
            random.hits(12)
        };
        let sink = wish.sink(random, grain);
        sinks.push(if is_last || chosen { Some(sink) } else { None })?;
    }
    Ok(sinks)
}

/// How many nodes are free at most.
const MOST_FREE: u32 = 6;

/// Most nodes that are neither the root nor a sink.
fn draw_free(
    alloc: Global,
    random: &mut Random,
    sinks: &[Option<Sink>],
) -> Result<Vec<bool>, AllocError> {
    let mut free = Vec::new(alloc);
    let mut count: u32 = 0;
    for (v, sink) in sinks.iter().enumerate() {
        let is_free = v > 0 && sink.is_none() && count < MOST_FREE && !random.hits(8);
        count = count.wrapping_add(u32::from(is_free));
        free.push(is_free)?;
    }
    Ok(free)
}

/// Up to three repeaters by rising resistance, some with equal ones.
fn draw_reps(alloc: Global, random: &mut Random, grain: Grain) -> Result<Vec<Rep>, AllocError> {
    let mut reps = Vec::new(alloc);
    let mut r: u64 = 0;
    let chances = 1 + random.draw(8);
    for _rep in 0..random.draw(8).min(3) {
        r = r.wrapping_add(grain.step(random));
        reps.push(Rep {
            inverts: random.hits(2),
            cin: grain.capacitance(random) / 2,
            k: grain.time(random) / 4,
            r,
            cost: random.draw(3),
            limit: grain.limit(random, chances),
        })?;
    }
    Ok(reps)
}

fn draw_driver(random: &mut Random, grain: Grain) -> Driver {
    Driver {
        k: i128::from(grain.time(random)),
        r: grain.resistance(random),
        arrival: -i128::from(grain.time(random)),
        limit: grain.limit(random, 5),
    }
}

/// What so many nodes allow: in most nets all repeaters, and in the others at some nodes some.
fn draw_choices(alloc: Global, random: &mut Random, size: u32) -> Result<Vec<Choice>, AllocError> {
    let are_all = random.hits(2);
    let mut choices = Vec::new(alloc);
    for _node in 0..size {
        let marks = [random.hits(2), random.hits(2), random.hits(2)];
        choices.push(if are_all || random.hits(3) {
            Choice::All
        } else {
            Choice::Marked(marks)
        })?;
    }
    Ok(choices)
}

impl Draft {
    /// The parts of a problem with up to so many nodes beside the root.
    pub fn draw(alloc: Global, random: &mut Random, most: u32) -> Result<Draft, AllocError> {
        let grain = Grain::draw(random);
        let more = random.draw(u64::from(most.max(1))) as u32;
        let size = more.saturating_add(2);
        let nodes = draw_nodes(alloc, random, grain, size)?;
        let sinks = draw_sinks(alloc, random, grain, nodes.as_slice())?;
        let free = draw_free(alloc, random, sinks.as_slice())?;
        Ok(Draft {
            nodes,
            driver: draw_driver(random, grain),
            sinks,
            free,
            reps: draw_reps(alloc, random, grain)?,
            choices: draw_choices(alloc, random, size)?,
        })
    }
}
