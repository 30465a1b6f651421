//! The laws of hulls. Each is the contract of a function that does nothing.

ghost use Rattle.vg_convex.specs.HullLaws.{HullServes, ValuesFall, PeakIsGreatest, PairComesOff, PairGoesOn, GreatestTurns};

/// Above any resistance some pair of the hull is worth no less than a pair of the row.
pub fn hull_serves()
    ensures { HullServes }
{}

/// Along a hull the values rise and then fall.
pub fn values_fall()
    ensures { ValuesFall }
{}

/// A peak of the hull is worth the most of the row.
pub fn peak_is_greatest()
    ensures { PeakIsGreatest }
{}

/// Before a pair goes on, a last pair that sags under it comes off.
pub fn pair_comes_off()
    ensures { PairComesOff }
{}

/// Where the last pair bends, the next goes on.
pub fn pair_goes_on()
    ensures { PairGoesOn }
{}

/// With more resistance no later pair is worth more than the one that was worth the most.
pub fn greatest_turns()
    ensures { GreatestTurns }
{}
