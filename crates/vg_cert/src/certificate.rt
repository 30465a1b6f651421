//! What a certificate holds.

use elmore::{Pair, Placement};

/// Pairs of required time (zs) and load (aF) at a node, by rising time and load: those for a signal that is not
/// inverted there, and those for one that is (Lillis, Cheng and Lin 1996).
#[derive(Drop)]
pub struct NodeLists {
    pub even: Vec<Pair>,
    pub odd: Vec<Pair>,
}

/// A claim about a net, with what shows it: that its placement is good and has this slack (zs), and no good placement
/// has more, or that no placement is good. The lists of a node bound what any placement comes to there.
#[derive(Drop)]
pub struct Certificate {
    /// The slack of the placement, or none where no placement is good.
    pub slack: Option<i128>,
    /// The cells that are placed: none of them where there is no slack.
    pub placement: Placement,
    /// The lists of the nodes, by their numbers.
    pub lists: Vec<NodeLists>,
}
