//! Laws of netlists and of their faults. Their functions do nothing: each one's contract is the law, which a proof may
//! cite.

ghost use Rattle.ver_file.specs.Laws.{FaultsOnce, LinksAreOwn, NamesAreDistinct, NetlistsAreFaultless, NetsAreNamed, ReadsOnce};

/// A text denotes one netlist at most, or else has one first fault at most.
pub fn texts_are_read_in_one_way()
    ensures netlists { ReadsOnce }
    ensures faults { FaultsOnce }
    ensures apart { NetlistsAreFaultless }
{}

/// A text links and assigns only nets that it has.
pub fn links_are_own()
    ensures { LinksAreOwn }
{}

/// The nets of a text have names of their own, each that of its identifier, a bit with its number.
pub fn nets_have_their_names()
    ensures distinct { NamesAreDistinct }
    ensures named { NetsAreNamed }
{}
