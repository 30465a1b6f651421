use crate::boxes::Corners;
use vg_scan::{Name, NodeName};

/// A row, as one line states it. Times are in zeptoseconds, resistances in milliohms, capacitances in attofarads,
/// coordinates in thousandths.
#[derive(Drop)]
pub(crate) enum Row {
    Default(i128),
    Required(NodeName, i128),
    Arrival(NodeName, i128),
    Want(NodeName),
    Drive(Name, (u64, i128)),
    Load(Name, u64),
    Block(NodeName),
    Allow(NodeName, Vec<Name>),
    BlockBox(Corners),
}
