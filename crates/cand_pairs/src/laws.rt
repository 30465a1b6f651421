//! Laws of the pairs at a node and of lists that cover them. Their functions do nothing: each one's contract is the
//! law, which a proof may cite.

ghost use Rattle.cand_pairs.specs.Certificates.{JoinsDecide, ValidShows};
ghost use Rattle.cand_pairs.specs.Priced.{PricedFrontier, PricedStep};
ghost use Rattle.cand_pairs.specs.CandidateLaws.{PairsStep, StepIsMonotone, CoverHolds, CoverBounds, CoverExcludes};
ghost use Rattle.cand_pairs.specs.CandidateLaws.{StepListsAreExact, ExactListsCover, RootPairs, RootDecides};

/// The pairs at a node are those that come from the pairs at its live children.
pub fn pairs_step()
    ensures { PairsStep }
{}

/// No worse pairs at the children come to no worse pairs at the node.
pub fn step_is_monotone()
    ensures { StepIsMonotone }
{}

/// Lists that cover what comes from them cover the pairs of all placements.
pub fn cover_holds()
    ensures { CoverHolds }
{}

/// No good placement has more slack than a cover allows at the root.
pub fn cover_bounds()
    ensures { CoverBounds }
{}

/// Where a cover has no even pair at the root, no placement is good.
pub fn cover_excludes()
    ensures { CoverExcludes }
{}

/// Lists that are undominated for what comes from them are so for the pairs of all placements.
pub fn step_lists_are_exact()
    ensures { StepListsAreExact }
{}

/// Lists that are undominated for the pairs of all placements cover what comes from them.
pub fn exact_lists_cover()
    ensures { ExactListsCover }
{}

/// The even pairs at the root are those of the good placements, each worth the placement's slack.
pub fn root_pairs()
    ensures { RootPairs }
{}

/// A placement that comes to the pair of greatest worth of an exact list at the root is best.
pub fn root_decides()
    ensures { RootDecides }
{}

/// A valid certificate with a slack shows that its placement is best, and one of none that no placement is good,
/// whoever made it.
pub fn valid_shows()
    ensures { ValidShows }
{}

/// Whether a node is covered is seen from the undominated lists of what its children's lists come to.
pub fn joins_decide()
    ensures { JoinsDecide }
{}

/// The pairs at a node, with what their cells cost, are those that come from the pairs at its live children.
pub fn priced_step()
    ensures { PricedStep }
{}

/// Where all pairs come from those of the children, and what does is beaten up to the cap, the points at the root are
/// the frontier.
pub fn priced_frontier()
    ensures { PricedFrontier }
{}
