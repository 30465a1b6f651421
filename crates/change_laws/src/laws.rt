//! Laws of the written files of a changed design. Their functions do nothing: each one's contract is the law, which a
//! proof may cite.

ghost use Rattle.change_laws.specs.Laws.{ChangedTextsAreADesign, OtherNetsKeepProblems, OtherNetsKeepSlacks, OtherNetsRetime, PlacedNetsRetimeInTexts, TimesOfDesignsAreSmall};

/// Let the cells of placements be put into different nets of the design of four texts, one after another, and let the
/// texts of its parasitics and its netlist be written anew with these changes. Then the new texts, with the same
/// library and constraints, are a design: none of them has a fault.
pub fn changed_texts_are_a_design()
    ensures { ChangedTextsAreADesign }
{}

/// Read again, each of these nets re-times to exactly the slack of its placement, where this gives each sink the
/// polarity that it wants, and no sink has the wrong one. So what mode `time` tells of it is this slack and no wrong
/// sink, or that a net on the way is too large.
pub fn placed_nets_retime_in_texts()
    ensures { PlacedNetsRetimeInTexts }
{}

/// Every net of the design that nothing refuses, and into which no cells are put, has the same problem in the design of
/// the new texts, by the same name. So as it is, without cells, it has the same slack, and the same first sink of the
/// wrong polarity; and so it re-times, before and after the change.
pub fn other_nets_time_as_before()
    ensures problem { OtherNetsKeepProblems }
    ensures slack { OtherNetsKeepSlacks }
    ensures retimes { OtherNetsRetime }
{}

/// The times of the constraints of a design are at most 10^23 zeptoseconds in size. So, of the net of a stage, only the
/// sum of capacitances that is limited can be too large (`stages_are_large_by_loads` of `retime_laws`).
pub fn times_of_designs_are_small()
    ensures { TimesOfDesignsAreSmall }
{}
