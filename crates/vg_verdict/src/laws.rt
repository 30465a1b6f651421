//! Laws of certificates. The calls do nothing: their contracts are the laws, which a proof may cite.

ghost use Rattle.vg_verdict.specs.Laws.{NamesFit, OneJudgement, ValidAreBest, WrittenAreValid};

/// The names of a net of a design are such that a certificate can be written with them, and read again.
pub fn net_names_fit()
    ensures { NamesFit }
{}

/// What `certified` writes, `judge_text` finds valid, with the slack of the placement that was found.
pub fn written_certificates_are_valid()
    ensures { WrittenAreValid }
{}

/// In a text one thing is found: what is said of a line and an answer says which ones they are.
pub fn judgements_are_one()
    ensures { OneJudgement }
{}

/// Let `judge_text` answer that a text is a valid certificate, or append the line that says so. Then, whoever made it,
/// its placement is good and has the slack of the line, and no good placement has more; or the line says that there is
/// none, and no placement is good.
pub fn valid_ones_are_best()
    ensures { ValidAreBest }
{}
