//! Laws of a net's lines. Their functions do nothing: each one's contract is the law, which a proof may cite.

ghost use Rattle.spef_net.specs.Laws.{FaultOrNone, OneFault, OneNet, OtherNetsCountNot};

/// Lines denote at most one net, and have at most one first fault; none where they are faultless.
pub fn one_net()
    ensures net { OneNet }
    ensures fault { OneFault }
    ensures either { FaultOrNone }
{}

/// What lines say does not depend on the nets of their file, but on its header and its name map alone.
pub fn other_nets_count_not()
    ensures { OtherNetsCountNot }
{}
