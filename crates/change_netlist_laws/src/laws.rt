//! Laws of the netlists of designs into which cells are put. Their functions do nothing: each one's contract is the
//! law, which a proof may cite.

ghost use Rattle.change_netlist_laws.specs.Laws.{ChangesAreConsistent, NetlistsAreReadAgain, NetsAreSplit, OtherNetsStay, PrefixesAreWords, StagesAreNets, StagesDiffer};

/// Let cells be put into nets of a design. What is then written into its netlist may be written there, the names of new
/// cells and new nets are new, and only nets are written that are there. So the new text denotes a netlist, which is
/// the old one with the changes.
pub fn netlists_are_read_again()
    ensures consistent { ChangesAreConsistent }
    ensures read { NetlistsAreReadAgain }
{}

/// A prefix that the program may be asked for is a word, as new names in a netlist want it; and each net into which
/// cells are put is split in some way, behind those that were put before.
pub fn nets_are_split()
    ensures words { PrefixesAreWords }
    ensures split { NetsAreSplit }
{}

/// In such a netlist the net of each stage has the stage's name and its ends: the pins and ports of the net that is
/// split which are in the stage, and the pins of the cells that begin and end it. Those cells are instances between the
/// nets of their two stages. The stage that keeps the net's name is the port that the net was, if it was one, and no
/// other is a port; and each such net is that of one stage alone.
pub fn stages_are_nets()
    ensures nets { StagesAreNets }
    ensures differ { StagesDiffer }
{}

/// Every other net of the netlist that has an end is in it by its name, with the same ends, of the same cells; it is
/// the same port, or none, and is tied if it was.
pub fn other_nets_stay()
    ensures { OtherNetsStay }
{}
