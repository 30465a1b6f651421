//! The net of a generated design.
ghost use Rattle.std.specs.Prelude.{◌≡◌, ◌*◌, ◌<◌, ◌≤◌, ◌^◌, IfOk};
ghost use Rattle.vg_gen.specs.Nets.{branch_resistor, charge, last_resistor, line_resistor, segments};

use crate::random::next_number;
use std::alloc::Global;
use vg_num::Memory;

/// A node of the net.
#[derive(Clone, Copy)]
pub enum Node {
    /// The pin that drives the net.
    Driver,
    /// The node of the line with this number, from 1 on.
    Inner(u32),
    /// The sink at the end of the line.
    Sink,
    /// The sink of the branch with this number, from 1 on.
    Branch(u32),
}

/// A resistor.
#[derive(Clone, Copy)]
pub struct Resistor {
    /// The node that is named first.
    pub from: Node,
    /// The other one.
    pub to: Node,
    /// The resistance, in ohms.
    pub ohms: u32,
}

/// A resistor of the line, and the capacitor to the ground behind it.
#[derive(Clone, Copy)]
pub struct Segment {
    /// The resistance, in ohms.
    pub ohms: u32,
    /// The capacitance, in fF.
    pub femtofarads: u32,
}

/// The segments of a line of this size, from the driver on.
pub(crate) fn segments(alloc: Global, size: u32) -> Result<Vec<Segment>, Memory>
    ensures { IfOk result (λ line. line.items ≡ segments size) }
{
    let mut line = Vec::with_capacity(alloc, size as usize)?;
    let mut last = size;
    'segment: for _i in 0..size {
        let first = next_number(last);
        last = next_number(first);
        line.push(Segment {
            ohms: 100 + first % 100,
            femtofarads: 10 + last % 10,
        })?;
    }
    Ok(line)
}

/// All capacitors of these segments together, in fF.
pub(crate) fn charge(line: &[Segment]) -> u32
    requires { charge line.now < 2 ^ 32 }
    ensures { result ≡ charge line.now }
{
    line.iter().map(|segment| segment.femtofarads).sum()
}

/// The resistor of the line with this number, from 1 on, of so many ohms.
pub(crate) fn line_resistor(i: u32, ohms: u32) -> Resistor
    requires { 1 ≤ i }
    ensures { result ≡ line_resistor i ohms }
{
    let from = if i == 1 {
        Node::Driver
    } else {
        Node::Inner(i - 1)
    };
    Resistor {
        from,
        to: Node::Inner(i),
        ohms,
    }
}

/// The resistor from the end of a line of this size to its sink.
pub(crate) fn last_resistor(size: u32) -> Resistor
    ensures { result ≡ last_resistor size }
{
    Resistor {
        from: Node::Inner(size),
        to: Node::Sink,
        ohms: 100,
    }
}

/// The resistor of the branch with this number, from 1 on.
pub(crate) fn branch_resistor(j: u32) -> Resistor
    requires { 100 * j < 2 ^ 32 }
    ensures { result ≡ branch_resistor j }
{
    Resistor {
        from: Node::Inner(100 * j),
        to: Node::Branch(j),
        ohms: 50,
    }
}
