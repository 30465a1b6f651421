ghost use Rattle.std.specs.Prelude.{◌≡◌, ℕ, List, IfOk};
ghost use Rattle.std.specs.Str.{bytes_eq};
ghost use Rattle.std.specs.Cmp.{partial_equiv_from_equiv};
ghost use Rattle.std.specs.Cmp.Lexicographic.{nat_list_eq_equiv};
ghost use Rattle.std.specs.Cmp.Rules.{hashing};
ghost use Rattle.std.specs.Hash as fed;
ghost use Rattle.std.proofs.Common.{rules};

use std::alloc::Global;
use std::hash::{Hash, Hasher};
use std::marker::Model;
use vg_num::{Memory, Row};

/// A name: a list of bytes.
#[derive(Debug, Drop)]
pub struct Name {
    bytes: Vec<u8>,
}

impl Model for Name {
    ghost Value = { List ℕ };

    ghost view = { λ name. name.bytes.items };
}

impl Name {
    /// The name of these bytes, as they are. Answers `Memory` where there is no room.
    pub fn from_bytes(alloc: Global, bytes: &[u8]) -> Result<Name, Memory>
        ensures { IfOk result (λ name. name ≡ bytes.now) }
    {
        let bytes = Vec::from_slice(alloc, bytes)?;
        Ok(Name { bytes })
    }

    /// The name of the bytes of a list.
    pub(crate) fn from_vec(bytes: Vec<u8>) -> Name
        ensures { result ≡ bytes.items }
    {
        Name { bytes }
    }

    /// The same name, in memory of its own. Answers `Memory` where there is no room.
    pub fn copy(&self, alloc: Global) -> Result<Name, Memory>
        ensures { IfOk result (λ copy. copy ≡ self.now) }
    {
        let copy = Name::from_bytes(alloc, self.as_bytes())?;
        Ok(copy)
    }

    /// The bytes of the name.
    pub fn as_bytes(&self) -> &[u8]
        ensures { result.now ≡ self.now }
    {
        self.bytes.as_slice()
    }
}

impl NodeName {
    /// The same name, in memory of its own. Answers `Memory` where there is no room.
    pub fn copy(&self, alloc: Global) -> Result<NodeName, Memory>
        ensures { IfOk result (λ copy. copy ≡ self.now) }
    {
        let owner = self.owner.copy(alloc)?;
        let leaf = self.leaf.copy(alloc)?;
        Ok(NodeName { owner, leaf })
    }
}

impl PartialEq for Name {
    ghost eq = { bytes_eq };

    ghost laws = { partial_equiv_from_equiv nat_list_eq_equiv };

    fn eq(&self, other: &Self) -> bool {
        self.bytes == other.bytes
    }
}

impl Eq for Name {
    ghost laws = { nat_list_eq_equiv };
}

impl Hash for Name {
    ghost hash_input = { λ name. fed.slice fed.u8 name };

    ghost respects_eq = { Prim.search (hashing, rules) };

    fn hash<H: Hasher>(&self, state: &mut H) {
        self.bytes.hash(state);
    }
}

/// The name of a node: what owns it, and its leaf there. A port has an empty leaf.
#[derive(Debug, PartialEq, Eq, Hash, Drop)]
pub struct NodeName {
    pub owner: Name,
    pub leaf: Name,
}

/// The names of a net, of its nodes, and of the cells that are known at them.
#[derive(Drop)]
pub struct NetNames {
    pub net: Name,
    pub nodes: Row<NodeName>,
    pub cells: Row<Name>,
}
