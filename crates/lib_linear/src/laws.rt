//! Laws of libraries and their faults. Nothing calls these: their contracts are the laws.

ghost use Rattle.lib_linear.specs.Laws.{Excludes};

/// A text that denotes a library has no fault.
pub fn one_answer()
    ensures { Excludes }
{}
