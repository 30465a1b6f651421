//! Laws of the texts of changed netlists. Their functions do nothing: each one's contract is the law, which a proof may
//! cite.

ghost use Rattle.ver_patch_text_laws.specs.Laws.{ModulesStay, WordsArePatched};

/// The tokens of the text of a changed netlist are, by their kinds and bytes, those of the text with the same changes.
pub fn words_are_patched()
    ensures { WordsArePatched }
{}

/// The text of a changed netlist has tokens alone, and is a structural module.
pub fn modules_stay()
    ensures { ModulesStay }
{}
