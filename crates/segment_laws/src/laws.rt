//! Laws of texts with cut nets. Their functions do nothing: each one's contract is the law, which a proof may cite.

ghost use Rattle.segment_laws.specs.SegmentedDesigns.{CutNetsAreNoWorse};
ghost use Rattle.segment_laws.specs.SegmentedTexts.{CutSectionsAreRead};

/// Let a text have an index, and let sections of nets that nothing refuses be replaced by those of the nets with each
/// resistor cut into parts. Then the text is read as the cut nets, by the names of their nodes, and by all other names
/// it has the nets that it had. The wire delay to each sink is as it was.
pub fn cut_sections_are_read()
    ensures { CutSectionsAreRead }
{}

/// Let a net of a text be, in another, this net with each resistor cut into parts. Then, with every library, netlist
/// and constraints under which the net is accepted in both texts, the slack without cells is the same, and each good
/// placement gives one of the cut net, with the same cells at the nodes of the same names, which is good and has the
/// same slack. So the best slack does not fall.
pub fn cut_nets_are_no_worse()
    ensures { CutNetsAreNoWorse }
{}
