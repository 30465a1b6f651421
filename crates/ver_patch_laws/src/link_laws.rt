//! Laws of the declarations and the links of changed netlists. Their functions do nothing: each one's contract is the
//! law, which a proof may cite.

ghost use Rattle.ver_patch_laws.specs.LinkLaws.{DeclarationsStay, LinksStay};

/// The text of a changed netlist declares what the text does, with the same directions and ranges, and the new wires.
pub fn declarations_stay()
    ensures { DeclarationsStay }
{}

/// The pins of a changed netlist are linked, by the names of nets, to what they were, those that are rewired to the net
/// that is written, and those of new instances to the nets that are written. No new wire has the name of a vector.
pub fn links_stay()
    ensures { LinksStay }
{}
