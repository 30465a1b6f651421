//! A node by the texts of its name.

ghost use Rattle.std.specs.Prelude.{◌≡◌};
ghost use Rattle.vg_cons.specs.Named.{named};

use vg_scan::NodeName;

/// A node by the texts of its name, which stand elsewhere: its rows are found without a copy of the name. A port has an
/// empty leaf.
#[derive(Clone, Copy, Debug, PartialEq, Eq)]
pub struct NodeRef<'a> {
    pub owner: &'a [u8],
    pub leaf: &'a [u8],
}

impl<'a> NodeRef<'a> {
    /// The node of a name.
    pub fn of(name: &'a NodeName) -> NodeRef<'a>
        ensures { named result ≡ name.now }
    {
        NodeRef {
            owner: name.owner.as_bytes(),
            leaf: name.leaf.as_bytes(),
        }
    }
}
