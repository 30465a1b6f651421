//! The law of the names of a library's repeaters. Its function does nothing: its contract is the law, which a proof may
//! cite.

ghost use Rattle.lib_laws.specs.NameLaws.{NamesAreNames, NamesAreWords};

/// The names of a library's repeaters and of their pins are names as the grammar wants them: not empty, each byte from
/// 33 to
/// 126. So each of them can be a word of a text, and the name of a cell has no blank and no carriage return at its end.
pub fn names_can_be_words()
    ensures names { NamesAreNames }
    ensures words { NamesAreWords }
{}
