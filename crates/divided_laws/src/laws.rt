//! Laws of divided trees. Their functions do nothing: each one's contract is the law, which a proof may cite.

ghost use Rattle.divided_laws.specs.DividedTrees.{DividedTreesActAlike, DividedTreesKeepSinksBelow, DividedTreesKeepTotals, DividedTreesKeepWireDelays, LoadedTreesAreDivided};
ghost use Rattle.divided_laws.specs.DividedProblems.{DividedProblemsAreNoWorse, DividedProblemsKeepGood, DividedProblemsKeepSlack};

/// Let a tree be another with its edges divided, and let the same cells stand at the old nodes, and none at the new
/// ones. Then each old node has the load that it had, is seen from above as it was, and is as late and as often
/// inverted.
pub fn divided_trees_act_alike()
    ensures { DividedTreesActAlike }
{}

/// The wire delay to each old node is as it was.
pub fn divided_trees_keep_wire_delays()
    ensures { DividedTreesKeepWireDelays }
{}

/// All resistors together are as they were, and so are all capacitors.
pub fn divided_trees_keep_totals()
    ensures { DividedTreesKeepTotals }
{}

/// Let sinks stand at the old nodes where they stood. Then an old node with a sink strictly below has one still.
pub fn divided_trees_keep_sinks_below()
    ensures { DividedTreesKeepSinksBelow }
{}

/// Let loads come on top at the old nodes alone. Then the tree with them is the old one with them, its edges divided.
pub fn loaded_trees_are_divided()
    ensures { LoadedTreesAreDivided }
{}

/// The same cells at the same nodes have the same slack.
pub fn divided_problems_keep_slack()
    ensures { DividedProblemsKeepSlack }
{}

/// They are good where they were.
pub fn divided_problems_keep_good()
    ensures { DividedProblemsKeepGood }
{}

/// So the best slack does not fall.
pub fn divided_problems_are_no_worse()
    ensures { DividedProblemsAreNoWorse }
{}
