//! Laws of repairs. Their functions do nothing: each one's contract is the law, which a proof may cite.

ghost use Rattle.vg_repair.specs.RepairLaws.{OneRepair, RepairsAreGood, FarTargetIsBest};

/// All repairs of a problem for a target within a cap have one cost and one slack.
pub fn one_repair()
    ensures { OneRepair }
{}

/// A repair is good, has its slack, and is within the cap.
pub fn repairs_are_good()
    ensures { RepairsAreGood }
{}

/// Where no good placement has slack enough and there is no cap, a repair has the greatest slack of all good
/// placements, at the least cost that has it.
pub fn far_target_is_best()
    ensures { FarTargetIsBest }
{}
