//! Laws of nets that are timed through cells. Their functions do nothing: each one's contract is the law, which a proof
//! may cite.

ghost use Rattle.vg_retime.specs.Laws.{OneTiming, RetimedNotRefused};

/// A net that re-times, where no refusal of a number below k refuses a net on the way, is refused by none of these:
/// where all sixteen are asked, by none at all.
pub fn retimed_or_refused()
    ensures { RetimedNotRefused }
{}

/// A net re-times to one slack, and to one first sink of the wrong polarity, also where some refusals are left out.
pub fn one_timing()
    ensures { OneTiming }
{}
