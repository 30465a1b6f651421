//! A law of verdicts. Its function does nothing: its contract is the law, which a proof may cite.

ghost use Rattle.vg_check.specs.Verdicts.{OneVerdict};

/// A certificate has one verdict: what is said of verdicts says which one is answered.
pub fn one_verdict()
    ensures { OneVerdict }
{}
