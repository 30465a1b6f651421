//! Laws of repeaters. Their functions do nothing: each one's contract is the law, which a proof may cite.

ghost use Rattle.lib_linear.specs.RepeaterLaws.{NoneTwice, NotOver, OneLibrary, OneList, OneOrder, OnePlace, OneRepeater};

/// A cell is one repeater at most.
pub fn one_repeater()
    ensures { OneRepeater }
{}

/// The repeaters among some cells are one list.
pub fn one_list()
    ensures { OneList }
{}

/// Where no cell is given twice, the names of all differ.
pub fn none_twice()
    ensures { NoneTwice }
{}

/// Where the names of the cells differ, their repeaters in order are one list.
pub fn one_order()
    ensures { OneOrder }
{}

/// Cells that have their list of repeaters have no 257th repeater.
pub fn not_over()
    ensures { NotOver }
{}

/// One cell is the 257th repeater at most.
pub fn one_place()
    ensures { OnePlace }
{}

/// A text denotes one library at most.
pub fn one_library()
    ensures { OneLibrary }
{}
