//! Laws of the nets of a file. Their function does nothing: its contract is the laws, which a proof may cite.

ghost use Rattle.spef_wire.specs.Laws.{OneNet, OneRefusal, OneTree, PassedOrRefused};

/// A name has at most one net and one refusal, a net at most one tree, and a net that passes is not refused.
pub fn one_answer()
    ensures net { OneNet }
    ensures tree { OneTree }
    ensures refusal { OneRefusal }
    ensures passed { PassedOrRefused }
{}
