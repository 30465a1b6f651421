//! The law of designs. Its function does nothing: its contract is the law, which a proof may cite.

ghost use Rattle.design_read.specs.Laws.{DesignsAreFaultless, OneDesign};

/// Four texts are one design at most, and a design has no fault.
pub fn one_design()
    ensures one { OneDesign }
    ensures none { DesignsAreFaultless }
{}
