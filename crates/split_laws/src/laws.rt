//! Laws of the nets of stages, written and read again. Their functions do nothing: each one's contract is the law,
//! which a proof may cite.

ghost use Rattle.split_laws.specs.Cuts.{StagesAreCut};
ghost use Rattle.split_laws.specs.ReadNets.{ReadNetsAreTheSame, ReadStagesArePieces, ReadStagesAreTheSame};
ghost use Rattle.split_laws.specs.ReadPieces.{ReadStagesAreAccepted, ReadStagesHavePieces};
ghost use Rattle.split_laws.specs.StagePieces.{CellsAreRepeaters, StageNetsArePieces};

/// Let a net of a design be split by the cells of a placement of its problem. Then the cell at a node, as the placement
/// has it, is the library's repeater whose cell is put there.
pub fn cells_are_repeaters()
    ensures { CellsAreRepeaters }
{}

/// Let a net of a design be split by the cells of a placement of its problem. Then the net of each stage is the piece
/// that begins where the stage does: its nodes stand for the stage's nodes in the order in which the stage's net has
/// them, from number 0, where it is driven, and besides its capacitors they have the loads of the net's sinks, and of
/// the inputs of the cells that end the stage.
pub fn stage_nets_are_pieces()
    ensures { StageNetsArePieces }
{}

/// Let each node of a net be a connection, or have a note, a capacitance or a resistor. Then what is read again of the
/// net has its connections, and the same nodes by other numbers: each has the name of the one that it stands for.
pub fn read_nets_are_the_same()
    ensures { ReadNetsAreTheSame }
{}

/// What is read again of the net of a stage has its connections, and the same nodes by other numbers.
pub fn read_stages_are_the_same()
    ensures { ReadStagesAreTheSame }
{}

/// What is read again of the net of a stage is the piece that begins where the stage does: its nodes stand, by their
/// names, for the stage's nodes.
pub fn read_stages_are_pieces()
    ensures { ReadStagesArePieces }
{}

/// What is read again of the net of a stage has the stage's connections, by their names, and the one where the stage
/// begins alone drives it. No connection goes both ways, some are sinks, no node floats, and the resistors have no
/// loop: nothing but its size refuses it by the parasitics alone. So it has a tree.
pub fn read_stages_are_accepted()
    ensures { ReadStagesAreAccepted }
{}

/// Let a net of a new design be what is read again of the net of a stage. Let each of its sinks have the load that it
/// had before, and each cell that ends the stage the load of its input. Then each tree of the net is the stage's piece,
/// whose nodes stand for those of their names in the stage, and its sinks are those of the stage.
pub fn read_stages_have_pieces()
    ensures { ReadStagesHavePieces }
{}

/// Let a net of a design be split by the cells of a placement of its problem. Let a new design have a net for each
/// stage, each by a number of its own, which is timed as the stage's piece: with the tree and the sinks of the stage,
/// with the cells that end it, each before the net of its own stage, and under the net of the stage that its own cell
/// ends. Then these are the nets that the placement cuts the net into.
pub fn stages_are_cut()
    ensures { StagesAreCut }
{}
