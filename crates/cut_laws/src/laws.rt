//! Laws of nets that are cut at their cells. Their functions do nothing: each one's contract is the law, which a proof
//! may cite.

ghost use Rattle.cut_laws.specs.PieceLaws.{BareIsOnePiece, PiecesAct};
ghost use Rattle.cut_laws.specs.TreeLaws.{SomeTree};
ghost use Rattle.cut_laws.specs.PieceNets.{BuiltPieces, PiecesAreJoined, PiecesHaveTrees, RenumberedPieces};
ghost use Rattle.cut_laws.specs.Walks.{OneRetiming};
ghost use Rattle.cut_laws.specs.CutNets.{CutNetsRetime, CutNetsHavePolarity, CutNetsClimb, PiecesHaveSinks};

/// Let a tree be the piece of the node `v` of a tree with cells. Then the capacitance downstream of its root is the
/// load of `v`, and that of each other node is what is seen of its node from above. The delay from `v` to such a node
/// is that of the cell at `v`, the wire delay in the piece and that of the cell there; and no inverter is on the way
/// but these two cells, where they invert.
pub fn pieces_act()
    ensures { PiecesAct }
{}

/// A tree without cells is the piece of its root, node for node.
pub fn bare_is_one_piece()
    ensures { BareIsOnePiece }
{}

/// Let resistors join numbered nodes, one fewer than there are nodes, and join each node to the root. Then they have a
/// tree, breadth first from the root.
pub fn some_tree()
    ensures { SomeTree }
{}

/// Let numbered nodes with capacitors and resistors, in any order and direction, be a piece of a tree with cells. Then
/// each tree of theirs, with the loads of the pins, is that piece, and each of its nodes stands for what its number
/// stands for.
pub fn built_pieces()
    ensures { BuiltPieces }
{}

/// Let numbered nodes with capacitors and resistors be a piece of a tree with cells. Then each node is joined to the
/// root.
pub fn pieces_are_joined()
    ensures { PiecesAreJoined }
{}

/// Let numbered nodes with capacitors and resistors be a piece of a tree with cells. Then they have a tree.
pub fn pieces_have_trees()
    ensures { PiecesHaveTrees }
{}

/// Let numbered nodes with capacitors and resistors be a piece of a tree with cells. Then the same nodes with other
/// numbers are that piece, also where several capacitors at a node are put together. What the nodes stand for, and the
/// loads of their pins, move with the numbers.
pub fn renumbered_pieces()
    ensures { RenumberedPieces }
{}

/// Nets that are timed one after the other, from a first driver on, re-time to at most one slack.
pub fn one_retiming()
    ensures { OneRetiming }
{}

/// Let a placement have cells only at places, and let nets be the pieces that it cuts the problem's net into: one for
/// the root and one for each cell, with the sinks that stand there and the cells that end them. Timed one after the
/// other from the problem's driver on, they re-time to the slack of the placement, and to no other.
pub fn cut_nets_retime()
    ensures { CutNetsRetime }
{}

/// Let a placement have cells only at places, and let nets be the pieces that it cuts the problem's net into. All sinks
/// that are reached in these nets have the polarity that they want just where the placement gives each sink the
/// polarity that it wants.
pub fn cut_nets_have_polarity()
    ensures { CutNetsHavePolarity }
{}

/// Let nets be the pieces that a placement cuts a problem's net into. From each of them one climbs, by the cells that
/// drive them, to the net of the root, and over no net twice.
pub fn cut_nets_climb()
    ensures { CutNetsClimb }
{}

/// Let a placement have cells only at places, and let a piece begin at a node where no sink stands. Then the piece
/// drives a sink in its stage, or a cell that ends it, at another node.
pub fn pieces_have_sinks()
    ensures { PiecesHaveSinks }
{}
