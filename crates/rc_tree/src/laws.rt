//! Laws of the trees of nets. Their functions do nothing: each one's contract is the law, which a proof may cite.

ghost use Rattle.rc_tree.specs.Laws.{OneTree};

/// A net has at most one tree, and its nodes one order.
pub fn one_tree()
    ensures { OneTree }
{}
