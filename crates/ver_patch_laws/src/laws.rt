//! Laws of netlists by the names of their nets. Their functions do nothing: each one's contract is the law, which a
//! proof may cite.

ghost use Rattle.ver_patch_laws.specs.Laws.{LinkedNetsAreThere, LinksAreNamed, LinksGoByNames, NamesAreLinked, NamesDetermineNets, NetlistsAreRenewed, NetsAreAlike, NetsMayBeWritten, NewNetsAreBare, PinsAreRenewed, PinsDiffer, WiresAreNew, WiresMayBeWritten};

/// What the pins of a netlist are linked to is, by the names of nets, what its text links them to.
pub fn links_are_named()
    ensures links { LinksAreNamed }
    ensures names { NamesAreLinked }
{}

/// A net's name determines its number: the pins on a net are those that are linked to its name, and a name that a pin
/// is linked to is that of a net.
pub fn names_determine_nets()
    ensures there { LinkedNetsAreThere }
    ensures number { NamesDetermineNets }
    ensures pins { LinksGoByNames }
{}

/// A pin's name, with that of its instance, determines the pin.
pub fn names_determine_pins()
    ensures { PinsDiffer }
{}

/// The text of a net of a netlist, and the name of a wire that is a simple identifier, may be written into a netlist:
/// each is that of the net of this name.
pub fn nets_may_be_written()
    ensures nets { NetsMayBeWritten }
    ensures wires { WiresMayBeWritten }
{}

/// The text of a changed netlist denotes a netlist, where names are kept apart and only nets are written that are
/// there. Its instances are the old ones and the new ones; its pins are linked to what they were, or to what is
/// written; and the same nets are ports, and tied.
pub fn netlists_are_renewed()
    ensures { NetlistsAreRenewed }
{}

/// The pins of such a netlist have the names that they had, and those of the new instances theirs.
pub fn pins_are_renewed()
    ensures { PinsAreRenewed }
{}

/// A net of such a netlist is the port that it was, or none, and is tied if it was; a new wire is no port, and is not
/// tied.
pub fn nets_are_alike()
    ensures old { NetsAreAlike }
    ensures bare { NewNetsAreBare }
    ensures wires { WiresAreNew }
{}
