//! Laws of divided nets. Their functions do nothing: each one's contract is the law, which a proof may cite.

ghost use Rattle.divided_net_laws.specs.DividedNets.{DividedNetsHaveDividedTrees, DividedNetsHaveTrees, RenumberedNetsAreDivided};

/// Let a net be another with each resistor divided into so many parts. Then its tree is the tree of the other with its
/// edges divided, and by the numbers of the nodes each old node is itself.
pub fn divided_nets_have_divided_trees()
    ensures { DividedNetsHaveDividedTrees }
{}

/// Where a net has a tree, the divided net has one.
pub fn divided_nets_have_trees()
    ensures { DividedNetsHaveTrees }
{}

/// A divided net with other numbers for its nodes, and with capacitors of one node put together, is a divided net.
pub fn renumbered_nets_are_divided()
    ensures { RenumberedNetsAreDivided }
{}
