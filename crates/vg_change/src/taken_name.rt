//! A name of a design that is taken.

ghost use Rattle.std.specs.Prelude.{◌≡◌, IfOk};

use std::alloc::Global;
use std::marker::Model;
use ver_module::Net;
use vg_num::Memory;
use vg_scan::Name;

/// Where a name is kept.
#[derive(Drop)]
enum Named<'a> {
    /// In these bytes.
    Bytes(&'a [u8]),
    /// In the netlist, as that of this net.
    Net(Net<'a>),
}

/// A name of a design, lent by it. Contracts see the bytes of the name.
#[derive(Drop)]
pub struct TakenName<'a> {
    named: Named<'a>,
}

impl<'a> Model for TakenName<'a> {
    ghost use Rattle.std.specs.Prelude.{List, ℕ};
    ghost use Rattle.vg_change.specs.Named.{name_by};

    ghost Value = { List ℕ };

    ghost view = { λ taken. name_by taken.named };
}

/// The name of a net, in memory of its own.
fn net_name(alloc: Global, net: &Net<'_>) -> Result<Name, Memory>
    ensures { IfOk result (λ name. name ≡ net.now.name) }
{
    let mut bytes = Vec::new(alloc);
    net.push_name(&mut bytes)?;
    let name = Name::from_bytes(alloc, &bytes)?;
    Ok(name)
}

impl<'a> TakenName<'a> {
    /// The name that these bytes are.
    pub(crate) fn of_bytes(bytes: &'a [u8]) -> TakenName<'a>
        ensures { result ≡ bytes.entry.now }
    {
        TakenName {
            named: Named::Bytes(bytes),
        }
    }

    /// The name of a net.
    pub(crate) fn of_net(net: Net<'a>) -> TakenName<'a>
        ensures { result ≡ net.entry.name }
    {
        TakenName {
            named: Named::Net(net),
        }
    }

    /// The same name, in memory of its own. Answers `Memory` where there is no room.
    pub fn to_name(&self, alloc: Global) -> Result<Name, Memory>
        ensures { IfOk result (λ name. name ≡ self.now) }
    {
        match &self.named {
            Named::Bytes(bytes) => {
                let name = Name::from_bytes(alloc, bytes)?;
                Ok(name)
            }
            Named::Net(net) => {
                let name = net_name(alloc, net)?;
                Ok(name)
            }
        }
    }
}
