//! Laws of totals. Their functions do nothing: each one's contract is the law, which a proof may cite.

ghost use Rattle.vg_total.specs.TotalLaws.{TotalOfFrontiers, TotalOfNets, EmptyWhereNoChoice, FoundPointsRise};

/// The choices among the frontiers of nets under a cap serve for all choices of placements within it.
pub fn total_of_frontiers()
    ensures { TotalOfFrontiers }
{}

/// So what `total` answers for the frontiers that a search finds for nets under the same cap is the frontier
/// over all choices of a good placement of each.
pub fn total_of_nets()
    ensures { TotalOfNets }
{}

/// The frontier of several nets is empty exactly where no choice of a point of each is within the cap.
pub fn empty_where_no_choice()
    ensures { EmptyWhereNoChoice }
{}

/// Along the frontier that a search finds for a net both cost and slack rise strictly.
pub fn found_points_rise()
    ensures { FoundPointsRise }
{}
