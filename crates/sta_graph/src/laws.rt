//! Laws of orders and slacks. Their function does nothing: its contract is the laws, which a proof may cite.

ghost use Rattle.sta_graph.specs.Laws.{LeftIsAfterCycle, ReadyIsNotAfterCycle, OrderedHasNoCycle, SlackOfTimes, OneSlack};

/// What peeling leaves lies on a cycle or is reached from one; slacks come of the two times, and are unique.
pub fn path_laws()
    ensures left { LeftIsAfterCycle }
    ensures ready { ReadyIsNotAfterCycle }
    ensures ordered { OrderedHasNoCycle }
    ensures slack { SlackOfTimes }
    ensures one { OneSlack }
{}
