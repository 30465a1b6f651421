//! Laws of words. Their functions do nothing: each one's contract is the law, which a proof may cite.

ghost use Rattle.ver_patch_text_laws.specs.WordLaws.{NetTextsAreWords};

/// The text of a net is an identifier that gives the net's name, and for a bit its number in brackets.
pub fn net_texts_are_words()
    ensures { NetTextsAreWords }
{}
