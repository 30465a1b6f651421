//! Laws of timed designs. Their function does nothing: its contract is the law, which a proof may cite.

ghost use Rattle.vg_sta.specs.Laws.{TimedOrFault};

/// A design that is timed has no fault.
pub fn timed_or_fault()
    ensures { TimedOrFault }
{}
