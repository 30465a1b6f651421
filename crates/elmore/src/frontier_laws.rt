//! Laws of undominated lists and of frontiers. Their functions do nothing: each one's contract is the law, which a
//! proof may cite.

ghost use Rattle.elmore.specs.FrontierLaws.{BestIsLast, FrontierIsWhole, FrontierRises, OneFrontier, OneSlack, UndominatedIsExact};

/// Along a frontier both cost and slack rise strictly.
pub fn frontier_rises()
    ensures { FrontierRises }
{}

/// An attained point that no other attained point outdoes stands in the frontier.
pub fn frontier_is_whole()
    ensures { FrontierIsWhole }
{}

/// A frontier without a cap ends at the best slack.
pub fn best_is_last()
    ensures { BestIsLast }
{}

/// A placement has at most one slack.
pub fn one_slack()
    ensures { OneSlack }
{}

/// A problem has at most one frontier under a cap.
pub fn one_frontier()
    ensures { OneFrontier }
{}

/// An undominated list of the pairs at a node holds just those that no other pair at the node dominates.
pub fn undominated_is_exact()
    ensures { UndominatedIsExact }
{}
