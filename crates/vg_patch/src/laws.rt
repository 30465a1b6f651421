//! Laws of texts with replaced parts. Their functions do nothing: each one's contract is the law, which a proof may
//! cite.

ghost use Rattle.vg_patch.specs.Laws.{KeptPartsStay, PatchesAreSplit};

/// A text of which each part is replaced by what stands there is the text.
pub fn kept_parts_stay()
    ensures { KeptPartsStay }
{}

/// Let a part of a text be replaced among others. Then what comes of the text is what comes of the text before this
/// part by the parts before it, then what stands in its place, then what comes of the text behind it by the parts
/// behind it.
pub fn patches_are_split()
    ensures { PatchesAreSplit }
{}
