//! Laws of wire widths. Their functions do nothing: each one's contract is the law, which a proof may cite.

ghost use Rattle.wire_widths.specs.WidePairs.{PlainIsWithout, WideCoverExcludes, WideCoverHolds, WideIsNoWorse};
ghost use Rattle.wire_widths.specs.WidePairs.{WidePairsStep, WideRootDecides};
ghost use Rattle.wire_widths.specs.Widths.{WidthsAreElmore};

/// Loads and delays with widths are those of Elmore with other capacitances.
pub fn widths_are_elmore()
    ensures { WidthsAreElmore }
{}

/// The pairs at a node, over all widths, are those that come from the pairs at its live children.
pub fn wide_pairs_step()
    ensures { WidePairsStep }
{}

/// Lists that cover what comes from them cover the pairs of all placements and widths.
pub fn wide_cover_holds()
    ensures { WideCoverHolds }
{}

/// A pair of greatest worth at the root of a cover is that of a best placement and choice of widths.
pub fn wide_root_decides()
    ensures { WideRootDecides }
{}

/// Where a cover has no even pair at the root that the driver may charge, no placement is good with any widths.
pub fn wide_cover_excludes()
    ensures { WideCoverExcludes }
{}

/// Widths never make the best slack less.
pub fn wide_is_no_worse()
    ensures { WideIsNoWorse }
{}

/// With one width alone, which leaves a wire as it is, what is best is what is best without widths.
pub fn plain_is_without()
    ensures { PlainIsWithout }
{}
