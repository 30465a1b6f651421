//! Laws of the parasitics of changed designs. Their functions do nothing: each one's contract is the law, which a proof
//! may cite.

ghost use Rattle.change_spef_laws.specs.Laws.{ChangedNetsAreRead, NetsAreSplit, OneIndex, OtherNetsStay, SectionsAreReplaced, SplitsGoOn};

/// A text has one index at most: what is said of its nets, and where they stand, is determined.
pub fn one_index()
    ensures { OneIndex }
{}

/// Let cells be put into nets of a design, one after another, each with a placement of its problem. Then each edit of
/// the parasitics replaces the section of a net by the nets of its stages, which can be written. The sections stand in
/// the order of the file's index. A written net has the name of its section or a new one that begins with the prefix,
/// and no two written nets have one name.
pub fn sections_are_replaced()
    ensures { SectionsAreReplaced }
{}

/// Let cells be put into nets of a design, one after another, each with a placement of its problem. Then each net is
/// split by its placement, into cells of the design's library: its cells are few enough to be numbered over all nets,
/// and one of its stages keeps its name.
pub fn nets_are_split()
    ensures { NetsAreSplit }
{}

/// Where cells are put into one more net, it is split behind what changed before, and the cells of the nets that follow
/// are numbered behind its own.
pub fn splits_go_on()
    ensures { SplitsGoOn }
{}

/// Let cells be put into nets of a design, one after another, each with a placement of its problem, and let the edits
/// of the parasitics be made in the design's SPEF text. Then the text is a SPEF file without a fault, which says the
/// same of the header and the name map. For each stage of a net in which cells were put it has a net of the stage's
/// name, without a fault, and what is read of it is the stage's net again. Of all other names it has the net that it
/// had, or none where it had none. This is said of the text without its comments, which is what a design keeps.
pub fn changed_nets_are_read()
    ensures { ChangedNetsAreRead }
{}

/// Let cells be put into nets of a design, one after another, and let another text have its nets with these split. Then
/// it has each net of the design in which no cells were put as it was, by the same name.
pub fn other_nets_stay()
    ensures { OtherNetsStay }
{}
