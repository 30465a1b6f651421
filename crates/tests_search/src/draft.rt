//! The parts of a problem before it is made, so that some of them can be left out.

use crate::problems::{Choice, allowed_of, problem_with};
use elmore::{Allowed, Driver, Node, Problem, Rep, Sink};
use std::alloc::{AllocError, Global};
use std::test::Fail;
use vg_num::Row;

/// The parts of a problem: one element of the nodes, of the sinks, of the free nodes and of what is allowed for each
/// node.
#[derive(Drop)]
pub struct Draft {
    pub nodes: Vec<Node>,
    pub driver: Driver,
    pub sinks: Vec<Option<Sink>>,
    pub free: Vec<bool>,
    pub reps: Vec<Rep>,
    pub choices: Vec<Choice>,
}

/// What is left out of a problem: nothing, the limits of loads, or what nodes allow, so that each allows all repeaters.
#[derive(Clone, Copy, PartialEq, Eq)]
pub enum Without {
    Nothing,
    Limits,
    Choices,
}

/// The root of a net, without anything at it.
pub const BARE_ROOT: Node = Node {
    parent: 0,
    r: 0,
    c: 0,
};

/// A driver that takes no time.
const NO_DRIVER: Driver = Driver {
    k: 0,
    r: 0,
    arrival: 0,
    limit: None,
};

/// A node of a net that begins at some node, by the numbers of the nodes there, or with `is_top` that node itself.
fn node_below(node: Node, numbers: &[Option<u32>], is_top: bool) -> Result<Node, Fail> {
    if is_top {
        return Ok(Node {
            c: node.c,
            ..BARE_ROOT
        });
    }
    let above = *numbers.get(node.parent as usize).ok_or("no parent")?;
    let parent = above.ok_or("not below")?;
    Ok(Node { parent, ..node })
}

/// A sink, which with `odd` wants the other polarity.
fn turned(sink: Option<Sink>, odd: bool) -> Option<Sink> {
    sink.map(|sink| Sink {
        inverted: sink.inverted != odd,
        ..sink
    })
}

/// The first element, and behind it those of the nodes that have a number.
fn numbered<T: Copy + Drop>(
    alloc: Global,
    first: T,
    items: &[T],
    numbers: &[Option<u32>],
) -> Result<Vec<T>, AllocError> {
    let mut kept = Vec::new(alloc);
    kept.push(first)?;
    for (item, number) in items.iter().zip(numbers.iter()) {
        if number.is_some() {
            kept.push(*item)?;
        }
    }
    Ok(kept)
}

impl Draft {
    /// The problem without some of its parts. Fails where the parts are none of a problem, or beyond the limits.
    pub fn problem(&self, alloc: Global, without: Without) -> Result<Problem, Fail> {
        let limited = without != Without::Limits;
        let allowed = self.allowed(alloc, without)?;
        let reps = self.reps_with(alloc, limited)?;
        problem_with(
            alloc,
            self.nodes.as_slice(),
            self.driver_with(limited),
            self.sinks.as_slice(),
            self.free.as_slice(),
            reps.as_slice(),
            allowed,
        )
    }

    fn allowed(&self, alloc: Global, without: Without) -> Result<Row<Allowed>, Fail> {
        if without == Without::Choices {
            return Ok(Allowed::everywhere(alloc, self.choices.len())?);
        }
        allowed_of(alloc, self.choices.as_slice(), self.reps.len())
    }

    /// The driver, with its limit or without.
    fn driver_with(&self, limited: bool) -> Driver {
        Driver {
            limit: if limited { self.driver.limit } else { None },
            ..self.driver
        }
    }

    /// The repeaters, with their limits or without.
    fn reps_with(&self, alloc: Global, limited: bool) -> Result<Vec<Rep>, AllocError> {
        let mut reps = self.reps.clone()?;
        if !limited {
            for rep in reps.iter_mut() {
                rep.limit = None;
            }
        }
        Ok(reps)
    }

    /// Whether some load has a limit.
    pub fn has_limits(&self) -> bool {
        self.driver.limit.is_some() || self.reps.iter().any(|rep| rep.limit.is_some())
    }

    /// Whether some node does not allow all repeaters.
    pub fn has_choices(&self) -> bool {
        self.choices.iter().any(|choice| *choice != Choice::All)
    }

    /// For each node its number in the net that begins at node `v`, of which the first below the root is `v` itself.
    /// None: the node is not below `v`.
    fn numbers_below(&self, alloc: Global, v: usize) -> Result<Vec<Option<u32>>, AllocError> {
        let mut numbers: Vec<Option<u32>> = Vec::new(alloc);
        let mut next = 1;
        for (w, node) in self.nodes.iter().enumerate() {
            let under = match numbers.get(node.parent as usize) {
                Some(parent) => w > v && parent.is_some(),
                None => false,
            };
            if w == v || under {
                numbers.push(Some(next))?;
                next = next.wrapping_add(1);
            } else {
                numbers.push(None)?;
            }
        }
        Ok(numbers)
    }

    /// The nodes of the net that begins at node `v`, behind a root.
    fn nodes_below(
        &self,
        alloc: Global,
        v: usize,
        numbers: &[Option<u32>],
    ) -> Result<Vec<Node>, Fail> {
        let mut nodes = vec![in alloc; BARE_ROOT]?;
        for (w, (node, number)) in self.nodes.iter().zip(numbers.iter()).enumerate() {
            if number.is_some() {
                nodes.push(node_below(*node, numbers, w == v)?)?;
            }
        }
        Ok(nodes)
    }

    /// Its sinks, which with `odd` want the other polarity.
    fn sinks_below(
        &self,
        alloc: Global,
        numbers: &[Option<u32>],
        odd: bool,
    ) -> Result<Vec<Option<Sink>>, AllocError> {
        let mut sinks = numbered(alloc, None, self.sinks.as_slice(), numbers)?;
        for sink in sinks.iter_mut() {
            *sink = turned(*sink, odd);
        }
        Ok(sinks)
    }

    /// The parts of the net that begins at node `v`, at the end of a wire that takes no time behind a driver that takes
    /// none: the slack of its placements is how late the signal may reach `v`, and the load of its root is what is seen
    /// of `v`. With `odd`, its sinks want the other polarity.
    pub fn below(&self, alloc: Global, v: usize, odd: bool) -> Result<Draft, Fail> {
        let numbers = self.numbers_below(alloc, v)?;
        let nodes = self.nodes_below(alloc, v, numbers.as_slice())?;
        let sinks = self.sinks_below(alloc, numbers.as_slice(), odd)?;
        let free = numbered(alloc, false, self.free.as_slice(), numbers.as_slice())?;
        let all = Choice::All;
        let choices = numbered(alloc, all, self.choices.as_slice(), numbers.as_slice())?;
        Ok(Draft {
            nodes,
            driver: NO_DRIVER,
            sinks,
            free,
            reps: self.reps.clone()?,
            choices,
        })
    }

    /// Whether there is a sink.
    pub fn has_sink(&self) -> bool {
        self.sinks.iter().any(|sink| sink.is_some())
    }
}
