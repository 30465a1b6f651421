//! Laws of Elmore's model. Their functions do nothing: each one's contract is the law, which a proof may cite.

ghost use Rattle.elmore.specs.Laws.{DelaySteps, DownstreamSteps, RootDrivesAll};
ghost use Rattle.elmore.specs.PlacedLaws.{LoadSteps, PlacedDelaySteps, BareLoads, BelowDecides, OneStage};

/// The root has no delay, and every other node has its parent's delay and its own resistance times the capacitance
/// downstream.
pub fn delay_steps()
    ensures { DelaySteps }
{}

/// A node's downstream capacitance is its own capacitance and the downstream capacitances of its children.
pub fn downstream_steps()
    ensures { DownstreamSteps }
{}

/// The root's downstream capacitance is the whole net's.
pub fn root_drives_all()
    ensures { RootDrivesAll }
{}

/// A node's load is its own capacitance and what is seen of its children.
pub fn load_steps()
    ensures { LoadSteps }
{}

/// With cells the delay from a node to itself is its own cell's. To a node below it is that to the parent, the wire's
/// and the cell's there. By way of a node between, the delays to it and from it add, and its own cell counts once.
pub fn placed_delay_steps()
    ensures { PlacedDelaySteps }
{}

/// Without cells a node's load is its downstream capacitance, and the delay from the root is the wire's.
pub fn bare_loads()
    ensures { BareLoads }
{}

/// The cells at a node and below it alone decide its load, what is seen of it, and the delays and the inverters from it
/// to the nodes below.
pub fn below_decides()
    ensures { BelowDecides }
{}

/// Each node is in the stage of the root or of one cell, and in no other.
pub fn one_stage()
    ensures { OneStage }
{}
