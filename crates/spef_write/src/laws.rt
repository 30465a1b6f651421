//! Laws of texts that are written. Their functions do nothing: each one's contract is the law, which a proof may cite.

ghost use Rattle.spef_write.specs.Splices.{CutsKeepComments, SectionsSplice};
ghost use Rattle.spef_write.specs.SectionLaws.{HeadsNameNets, InnerLinesSay, SaidNetsAreFaultless};
ghost use Rattle.spef_write.specs.SectionLaws.{SectionsAreLines, SectionsAreQuiet, WrittenNetsAgain};
ghost use Rattle.spef_write.specs.TextLaws.{CapsAgain, ConnsAgain, LinesAgain, LinesAreQuiet, NamesAreQuiet, NodesAgain, NodesAreQuiet};
ghost use Rattle.spef_write.specs.TextLaws.{NotesAgain, NumbersAgain, RessAgain, StarsAgain, WordsAgain};

/// Let each of some words have a byte, and no blank and no newline. Then a line of them, with one blank between, has
/// these words.
pub fn words_again()
    ensures { WordsAgain }
{}

/// Let lines have no newline, and no carriage return at their end. Then a text of them, each with its newline, has
/// these lines, and after them those of whatever text follows.
pub fn lines_again()
    ensures { LinesAgain }
{}

/// Let the owner in a node's name not be empty. Then the name, printed by a file's delimiters, is read by this file as
/// the name again, be the node a port, a pin or inside a net.
pub fn nodes_again()
    ensures { NodesAgain }
{}

/// A printed name stays as it is where comments are made blank, and whatever text follows has the comments that it has
/// alone.
pub fn names_are_quiet()
    ensures { NamesAreQuiet }
{}

/// The printed name of a node stays as it is where comments are made blank, also where the delimiter is `/`, and
/// whatever text follows has the comments that it has alone.
pub fn nodes_are_quiet()
    ensures { NodesAreQuiet }
{}

/// Let a number be at most 10^15, and be printed as a decimal with so many places. Then what is printed is a word, and
/// is read as the number where values have so many places. It stays as it is where comments are made blank, and
/// whatever text follows has the comments that it has alone.
pub fn numbers_again()
    ensures { NumbersAgain }
{}

/// Let the owner in a node's name not be empty, and let the name have no blank and no newline. Let a file's unit give
/// its capacitances so many decimal places, not fewer than none, and let a capacitance of at most 10^15 aF be printed
/// with these. Then the line of a number below 10^64, the printed name and the printed capacitance says just this in
/// the file: a capacitor from this node to the ground, with this capacitance.
pub fn caps_again()
    ensures { CapsAgain }
{}

/// Let the owners in the names of two nodes not be empty, and let the names have no blank and no newline. Let a file's
/// unit give its resistances so many decimal places, not fewer than none, and let a resistance of at most 10^15 mΩ be
/// printed with these. Then the line of a number below 10^64, the printed names and the printed resistance says just
/// this in the file: a resistor between these nodes, with this resistance.
pub fn ress_again()
    ensures { RessAgain }
{}

/// Let a note be on one line, and have no blank and no carriage return at its ends. Let it stand after one blank behind
/// a line of words, each of which has a byte, and no blank and no newline; or let the line end with its words, where
/// the note is empty. Then what is read behind so many words is the note.
pub fn notes_again()
    ensures { NotesAgain }
{}

/// Let the owner in a node's name not be empty, and let the name have no blank and no newline. Let the name have a leaf
/// where the connection is at a pin, and none where it is at a port. Let a note be on one line, and have no blank and
/// no carriage return at its ends. Then the line of `*I` or `*P`, the printed name, `I`, `O` or `B`, and the note if
/// there is one, says just this in the part for connections: a connection of this kind and this direction at this node,
/// with this note.
pub fn conns_again()
    ensures { ConnsAgain }
{}

/// Let the owner in a node's name not be empty, and let the name have no blank and no newline. Let a note be on one
/// line, and have no blank and no carriage return at its ends. Then the line of `*N`, the printed name, and the note if
/// there is one, says just this in the part for connections: this node is inside the net, with this note.
pub fn stars_again()
    ensures { StarsAgain }
{}

/// Let a number be below 10^64, and values be at most 10^15. Then the lines of a capacitor to the ground and of a
/// resistor stay as they are, with their newlines, where comments are made blank, and whatever text follows has the
/// comments that it has alone. Where this holds of a note with a newline behind it, it holds of the line of a
/// connection or of a node inside the net with this note. Where it holds of a text, it holds of the text as a line, and
/// where it holds of each of some lines, it holds of the text of them.
pub fn lines_are_quiet()
    ensures { LinesAreQuiet }
{}

/// Let the first word of a line begin at a place in a text without its comments. Then the text may be cut there: what
/// stands before the place has the comments that it had, and whatever text is put behind it those that it has alone;
/// and what stands from the place on has alone the comments that it had.
pub fn cuts_keep_comments()
    ensures { CutsKeepComments }
{}

/// Let a section of a text begin with the first word of a line, and end with `*END` that is the first word of a line
/// too, both in the text without its comments. Replace it by a text that stays as it is where comments are made blank,
/// and behind which any text has the comments that it has alone. Then what stands before the section and what stands
/// behind it have the comments that they had.
pub fn sections_splice()
    ensures { SectionsSplice }
{}

/// Let a file's names and numbers be meant as a header says, and let a net be one that can be written. Then the lines
/// between the first line of the net's section and its end say just this in the file: its connections with their notes,
/// its inner nodes with notes, a capacitor to the ground at each node that has a capacitance, and its resistors.
pub fn inner_lines_say()
    ensures { InnerLinesSay }
{}

/// No line of the section of a net that can be written has a fault.
pub fn said_nets_are_faultless()
    ensures { SaidNetsAreFaultless }
{}

/// Let a net be one that can be written. Whatever net the lines of its section denote is this one again, but for the
/// numbers of nodes, nodes that nothing names, and capacitors of one node, which are one: the name, the nodes with
/// their notes, and in order the connections, the capacitances and the resistors, by the names of their nodes.
pub fn written_nets_again()
    ensures { WrittenNetsAgain }
{}

/// The section of a net has the lines of which it is made, whatever text follows.
pub fn sections_are_lines()
    ensures { SectionsAreLines }
{}

/// Let the notes of a net's nodes stay as they are where comments are made blank, each with a newline behind it, and
/// let whatever text follows have the comments that it has alone. Then so it is of the net's section.
pub fn sections_are_quiet()
    ensures { SectionsAreQuiet }
{}

/// The words of a section's first line are `*D_NET`, a name and the capacitance. The name is no reference to an index,
/// and its canonical name is that of the net.
pub fn heads_name_nets()
    ensures { HeadsNameNets }
{}
