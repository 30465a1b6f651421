//! Laws of a text's statements and of its joined lines. Their functions do nothing: each one's contract is the law,
//! which a proof may cite.

ghost use Rattle.lib_laws.specs.Laws.{FoundInside, GroupIsInside, GroupsInside, InOrder, JoinedByPlace, NamesAreOwn, PlainStays};

/// Statements stand in the order of their names.
pub fn statements_in_order()
    ensures { InOrder }
{}

/// In a library each statement has a name of its own.
pub fn names_are_own()
    ensures { NamesAreOwn }
{}

/// What stands in a group stands inside it.
pub fn group_is_inside()
    ensures { GroupIsInside }
{}

/// An attribute of a group is found inside it.
pub fn found_inside()
    ensures { FoundInside }
{}

/// The groups in a group are found inside it.
pub fn groups_inside()
    ensures { GroupsInside }
{}

/// Joined lines keep each byte in its place, and are blank where lines go on.
pub fn joined_by_place()
    ensures { JoinedByPlace }
{}

/// A text without backslashes and carriage returns is unchanged where lines are joined.
pub fn plain_stays()
    ensures { PlainStays }
{}
