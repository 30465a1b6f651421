//! Laws of lists whose candidates rise in time and load. A function here does nothing: its contract is the law, which a
//! proof may cite.

ghost use Rattle.cand_lists.specs.ListLaws.{WireIsExact, WireTakes, WireLoads, BothAreExact, BothTake, LoadIsExact};

/// A wire leaves the undominated pairs of those that it makes of a list, each with the solution that it had. A load
/// beside its upper end is added to each of them.
pub fn wire_is_exact()
    ensures exact { WireIsExact }
    ensures taken { WireTakes }
    ensures loaded { WireLoads }
{}

/// Of two lists stay the undominated pairs of both together, each with the solution that it had.
pub fn both_are_exact()
    ensures exact { BothAreExact }
    ensures taken { BothTake }
{}

/// A load beside a list leaves all its pairs, each with so much more load.
pub fn load_is_exact()
    ensures exact { LoadIsExact }
{}
