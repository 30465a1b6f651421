//! The wire delays of sinks.

ghost use Rattle.std.specs.Prelude.{◌≡◌, ◌<◌, ◌++◌, ◌∷◌, [], ℤ, pos, length, slice_index_or, OnOk, OnErr};
ghost use Rattle.vg_scan.specs.declared.name.NodeName.{NodeName};

use name_tables::Texts;
use std::alloc::Global;
use std::marker::Model;
use vg_num::Memory;

/// Sinks, each with the wire delay to it (zs). Contracts see the list of names and delays. The names stand in few
/// buffers, so that no sink takes memory of its own.
#[derive(Drop)]
pub struct SinkDelays {
    owners: Texts,
    leaves: Texts,
    delays: Vec<i128>,
}

impl Model for SinkDelays {
    ghost use Rattle.std.specs.Prelude.{◌≤◌, ℤ, List, length};
    ghost use Rattle.vg_scan.specs.declared.name.NodeName.{NodeName};
    ghost use Rattle.spef_wire.specs.SinkRows.{sink_rows};

    ghost Value = { List (NodeName × ℤ) };

    ghost view = { λ sinks. sink_rows sinks.owners sinks.leaves sinks.delays.items };

    ghost invariant = { λ sinks. (length sinks.delays.items ≤ length sinks.owners)
        × (length sinks.delays.items ≤ length sinks.leaves) };
}

impl SinkDelays {
    /// No sinks.
    pub(crate) fn new(alloc: Global) -> SinkDelays
        ensures { result ≡ [] }
    {
        SinkDelays {
            owners: Texts::new(alloc),
            leaves: Texts::new(alloc),
            delays: Vec::new(alloc),
        }
    }

    /// How many sinks there are.
    pub fn len(&self) -> usize
        ensures { result ≡ length self.now }
    {
        self.delays.len()
    }

    /// The owner in the name of the sink of this number, counted from 0.
    pub fn owner(&self, at: usize) -> &[u8]
        requires { at < length self.now }
        ensures { (other : NodeName × ℤ) → result.now ≡ (slice_index_or self.now at other).0.owner }
    {
        self.owners.get(at)
    }

    /// The leaf in the name of the sink of this number; a port's is empty.
    pub fn leaf(&self, at: usize) -> &[u8]
        requires { at < length self.now }
        ensures { (other : NodeName × ℤ) → result.now ≡ (slice_index_or self.now at other).0.leaf }
    {
        self.leaves.get(at)
    }

    /// The wire delay to the sink of this number (zs).
    pub fn delay(&self, at: usize) -> i128
        requires { at < length self.now }
        ensures { (other : NodeName × ℤ) → result ≡ (slice_index_or self.now at other).1 }
    {
        self.delays.as_slice()[at]
    }

    /// Puts a sink last. Answers `Memory` where there is no room, and from then on; the sinks stay as they were.
    pub(crate) fn push(&mut self, owner: &[u8], leaf: &[u8], delay: i128) -> Result<(), Memory>
        ensures last { OnOk result (self.new ≡ self.old
            ++ (record { owner = owner.now; leaf = leaf.now }, delay) ∷ []) }
        ensures unchanged { OnErr result (self.new ≡ self.old) }
    {
        let count = self.delays.len();
        if self.owners.len() != count || self.leaves.len() != count {
            return Err(Memory);
        }
        let Ok(()) = self.owners.push(owner) else {
            return Err(Memory);
        };
        let Ok(()) = self.leaves.push(leaf) else {
            return Err(Memory);
        };
        let Ok(()) = self.delays.push(delay) else {
            return Err(Memory);
        };
        Ok(())
    }
}
