//! Laws of nets whose resistors are cut. Their functions do nothing: each one's contract is the law, which a proof may
//! cite.

ghost use Rattle.vg_segment.specs.Segments.{OneSegmented};

/// A net has at most one net that is it with each resistor cut into so many parts.
pub fn one_segmented()
    ensures { OneSegmented }
{}
