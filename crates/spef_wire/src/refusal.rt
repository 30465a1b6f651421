ghost use Rattle.std.specs.Prelude.{◌≡◌};
ghost use Rattle.spef_wire.specs.Refusals.{number_of};
ghost use Rattle.spef_wire.specs.declared.refusal.Refused.TheVariants.{Memory as out_of_memory};

use spef_net::NetFault;
use vg_num::Memory;
use vg_scan::NodeName;

/// Why a net is refused. Of several reasons the first counts, in the order of their numbers. By its SPEF file alone a
/// net is refused for the reasons 1 to 7, 12 to 14 and 16; the others need the other files of a design, which add to 1,
/// 5 and 16.
#[derive(Debug, Drop)]
pub enum Refusal {
    /// 1: the SPEF file has no section for a net of this name, or the module no such net.
    UnknownNet,
    /// 2: the lines of the net have a fault; it is never out of memory.
    Section(NetFault),
    /// 3: the net is a reduced one.
    Reduced,
    /// 4: the net has a part of inductances.
    Inductive,
    /// 5: a connection goes both ways, or the net is an inout port.
    Bidirectional,
    /// 6: no connection is an output of an instance or an input of the design.
    NoDriver,
    /// 7: two or more connections are.
    ManyDrivers,
    /// 8: the connections are not the pins and the port that the module links to the net, or the port has another
    /// direction.
    Mismatch,
    /// 9: the net stands in an assignment or in a link to several nets, or is a supply.
    Tied,
    /// 10: the driver is a pin for which the library gives no delay or no resistance.
    NoDrive,
    /// 11: the library gives no capacitance for this sink's pin; it is the first such one in the order of the
    /// connections.
    NoLoad(NodeName),
    /// 12: no chain of resistors joins this node to the driver's; it is the first such node in the order of the net's
    /// nodes.
    Floating(NodeName),
    /// 13: each node is joined to the driver's, and the resistors are not one fewer than the nodes.
    Loop,
    /// 14: no connection is a sink.
    NoSink,
    /// 15: this sink has no required time; it is the first such one in the order of the connections.
    Unconstrained(NodeName),
    /// 16: the net has more than 65,536 nodes or 2^20 capacitors, or all its resistors together have more than 10^12
    /// mΩ, or all its capacitors more than 10^11 aF; with the other files, also where it passes another limit of
    /// problems.
    TooLarge,
}

impl Refusal {
    /// The number of the refusal.
    pub fn number(&self) -> u8
        ensures { result ≡ number_of self.now }
    {
        match self {
            Refusal::UnknownNet => 1,
            Refusal::Section(_) => 2,
            Refusal::Reduced => 3,
            Refusal::Inductive => 4,
            Refusal::Bidirectional => 5,
            Refusal::NoDriver => 6,
            Refusal::ManyDrivers => 7,
            Refusal::Mismatch => 8,
            Refusal::Tied => 9,
            Refusal::NoDrive => 10,
            Refusal::NoLoad(_) => 11,
            Refusal::Floating(_) => 12,
            Refusal::Loop => 13,
            Refusal::NoSink => 14,
            Refusal::Unconstrained(_) => 15,
            Refusal::TooLarge => 16,
        }
    }
}

/// Why there is no answer for a net.
#[derive(Debug, Drop)]
pub enum Refused {
    /// The net is refused.
    Net(Refusal),
    /// Out of memory.
    Memory,
}

impl From<Memory> for Refused {
    ghost from_gives = { λ _ refused. refused ≡ out_of_memory };

    fn from(_: Memory) -> Self {
        Refused::Memory
    }
}
