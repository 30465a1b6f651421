//! Laws of spliced texts. Their functions do nothing: each one's contract is the law, which a proof may cite.

ghost use Rattle.spef_patch_laws.specs.FileLaws.{FilesAreSpliced};
ghost use Rattle.spef_patch_laws.specs.NoteLaws.{NamedNotesAreQuiet, NotesWithCellsAreQuiet, ReadNotesAreQuiet};
ghost use Rattle.spef_patch_laws.specs.PatchLaws.{EndsKeepComments, PatchesKeepComments};
ghost use Rattle.spef_patch_laws.specs.Replacements.{SectionsMayChange};
ghost use Rattle.spef_patch_laws.specs.ReplacementLaws.{OwnNamesAreFree, ReplacementsAreRead};
ghost use Rattle.spef_patch_laws.specs.RunLaws.{LinesAreReadElsewhere, NetsAreRead};
ghost use Rattle.spef_patch_laws.specs.SectionLaws.{TextsHaveChanges, WritableNetsAreWritten, WrittenSectionsAreQuiet, WrittenTextsAreRead};

/// Let the header of a file be over after some lines, and let the next line stand in no net. Let the lines of a net
/// follow: a head `*D_NET` with a name that no net before has, lines that are no heads and no ends, and `*END`. Then
/// none of them has a fault, whatever follows, and they say this net and nothing else.
pub fn nets_are_read()
    ensures { NetsAreRead }
{}

/// Let the lines before others say the same of the header and the name map as lines elsewhere, but perhaps other nets,
/// and let the others be read without a fault. Then they say the same elsewhere, and add the same nets. They have no
/// fault there either, if no net before them there has the name of one that they add.
pub fn lines_are_read_elsewhere()
    ensures { LinesAreReadElsewhere }
{}

/// Let a text be a file without a fault. Replace the lines of some of its nets, each from the head to `*END`, by those
/// of one or more nets. Then the text is a file without a fault that says the same of the header and the name map, if
/// no two of its nets have the same name then. Its nets are those of the file in their order, each with the lines that
/// it had, but the new ones stand in place of those that they replace.
pub fn files_are_spliced()
    ensures { FilesAreSpliced }
{}

/// Let `*END` be the first word of a line of a text without its comments. Then the text may be cut behind it.
pub fn ends_keep_comments()
    ensures { EndsKeepComments }
{}

/// Let a text have parts, one after another, at both ends of which it may be cut. Replace them by texts that stay as
/// they are where comments are made blank, and behind which any text has the comments that it has alone. Then what
/// stands between the parts has the comments that it had.
pub fn patches_keep_comments()
    ensures { PatchesKeepComments }
{}

/// Let sections of a text, from the head to `*END`, stand one after another. Replace each by the sections of one or
/// more nets that can be written, the last one without a newline. Then the text has the lines that it had, without its
/// comments, but those of the written nets in place of the lines of the nets that they replace, whose heads stand where
/// the sections begin.
pub fn texts_have_changes()
    ensures { TextsHaveChanges }
{}

/// No line of the section of a net that can be written, between its first line and its end, is the head or the end of a
/// net.
pub fn writable_nets_are_written()
    ensures { WritableNetsAreWritten }
{}

/// Let a file's names and numbers be meant as a header says. Then the lines of a net that can be written, as they are
/// written by this header, have no fault in the file, and what is read of them is the net again.
pub fn written_texts_are_read()
    ensures { WrittenTextsAreRead }
{}

/// Let the notes of some nets' nodes stay as they are where comments are made blank, each with a newline behind it, and
/// let whatever text follows have the comments that it has alone. Then so it is of the nets' sections, one after
/// another.
pub fn written_sections_are_quiet()
    ensures { WrittenSectionsAreQuiet }
{}

/// Let a text have an index, and let one or more sections of it, by rising numbers, be replaced each by one or more
/// nets that can be written, the notes of whose nodes stay as they are where comments are made blank. Then the sections
/// stand in the text where the index says, one after another, and may be replaced there.
pub fn sections_may_change()
    ensures { SectionsMayChange }
{}

/// Let sections of an index be replaced by nets of which each has the name of its section, or one that no net of the
/// file has. Let no two nets in place of one section have one name, and no two in place of different sections one that
/// is new. Then no two of all these nets have one name, and none has that of a net that stays.
pub fn own_names_are_free()
    ensures { OwnNamesAreFree }
{}

/// Let a text have an index, and let sections of it, by rising numbers, be replaced each by one or more nets that can
/// be written, the notes of whose nodes stay as they are where comments are made blank. Let no two of the written nets
/// have one name, and let the file have a net of a written net's name only where its section is replaced. Then the text
/// with these sections is a file without a fault that says the same of the header and the name map. By each written
/// net's name it has a net, without a fault, which is the written net again. By all other names, but those of nets
/// whose sections are replaced, it has the net that it had, or none where it had none.
pub fn replacements_are_read()
    ensures { ReplacementsAreRead }
{}

/// Let a note stay as it is where comments are made blank, with a newline behind it, and let whatever text follows have
/// the comments that it has alone. Then so it is of the note with `*D` and the printed name of a cell behind it, after
/// a blank where the note is not empty.
pub fn notes_with_cells_are_quiet()
    ensures { NotesWithCellsAreQuiet }
{}

/// The notes of a net that is read from a text, by its head or by its name, stay as they are where comments are made
/// blank, each with a newline behind it, and whatever text follows has the comments that it has alone.
pub fn read_notes_are_quiet()
    ensures net { ReadNotesAreQuiet }
    ensures named { NamedNotesAreQuiet }
{}
