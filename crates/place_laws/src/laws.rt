//! Laws of written files. Their functions do nothing: each one's contract is the law, which a proof may cite.

ghost use Rattle.place_laws.specs.Laws.{WrittenPlacementsRetime};

/// Let a design have no name that begins with a prefix, and let something be said of the nets that are asked for, one
/// or all, each of which gets the cells of a good placement or none. Then the files with all these cells are, with the
/// same library and constraints, a design, in which each net of which a placement is told re-times to exactly the slack
/// of this placement, with no sink of the wrong polarity. So mode `time` tells this slack of the written files under the
/// same prefix, or that a net on the way is too large.
pub fn written_placements_retime()
    ensures { WrittenPlacementsRetime }
{}
