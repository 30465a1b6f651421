//! Laws of a net that is split, in a new design that has a net for each of its stages. Their functions do nothing: each
//! one's contract is the law, which a proof may cite.

ghost use Rattle.retime_laws.specs.Limits.{StagesAreLargeByLoads};
ghost use Rattle.retime_laws.specs.Laws.{NewNetsAreCut, PlacedNetsAreRefused, PlacedNetsRetime, PlacedNetsTime, StagesAreAccepted, StagesAreTimed, StagesHaveLoads, StagesHaveNets, StagesRetime};

/// Let a net that is accepted be split by the cells of a placement, and let a new design have a net for each stage,
/// with the stage's parasitics and the stage's ends. Then nothing refuses the net of a stage on a walk, but perhaps its
/// size.
pub fn stages_are_accepted()
    ensures { StagesAreAccepted }
{}

/// Then the sinks of a stage have the loads that they had before, and each cell that ends the stage that of its input.
pub fn stages_have_loads()
    ensures { StagesHaveLoads }
{}

/// Then the new design has, for each stage, a net as a walk comes to it.
pub fn stages_have_nets()
    ensures { StagesHaveNets }
{}

/// Then such nets are timed as the stages' pieces: with the tree and the sinks of the stage, with the cells that end
/// it, each before the net of its own stage, and under the net of the stage that its own cell ends.
pub fn stages_are_timed()
    ensures { StagesAreTimed }
{}

/// So they are the nets that the placement cuts the net into.
pub fn new_nets_are_cut()
    ensures { NewNetsAreCut }
{}

/// Let a net that is accepted be split by the cells of a placement that gives each sink the polarity that it wants, and
/// let a new design have a net for each stage. Then the net of each stage re-times in the new design to exactly the
/// slack of the placement, and no sink that the walk comes to has the wrong polarity. No net on the way is refused, but
/// perhaps for its size.
pub fn stages_retime()
    ensures { StagesRetime }
{}

/// So does the net of the old name: what was asked of it before the change, is answered by the slack of the placement.
pub fn placed_nets_retime()
    ensures { PlacedNetsRetime }
{}

/// So whatever slack and wrong sink mode `time` tells of the net of the old name in the new design, are the slack of
/// the placement, and no sink.
pub fn placed_nets_time()
    ensures { PlacedNetsTime }
{}

/// And where it refuses the net, a net on the way is too large.
pub fn placed_nets_are_refused()
    ensures { PlacedNetsAreRefused }
{}

/// Only one limit can refuse the net of a stage as too large, where the times of the constraints are as they are read:
/// that on the sum of its capacitances, which counts the greatest input capacitance of the repeaters at each place.
pub fn stages_are_large_by_loads()
    ensures { StagesAreLargeByLoads }
{}
