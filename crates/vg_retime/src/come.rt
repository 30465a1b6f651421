//! The nets that have come on a way.

ghost use Rattle.std.specs.Prelude.{◌≡◌, ◌++◌, ◌∷◌, [], ℕ, not, true, eqb, IfOk};
ghost use Rattle.std.specs.List.{list_any, IsDistinct};

use indexmap::IndexSet;
use std::alloc::Global;
use std::marker::Model;
use vg_num::Memory;

/// The nets that have come on a way, in the order in which they came. Contracts see the list of their numbers.
#[derive(Drop)]
pub(crate) struct Come {
    nets: IndexSet<u32>,
}

impl Model for Come {
    ghost use Rattle.std.specs.Prelude.{List, ℕ};

    ghost Value = { List ℕ };

    ghost view = { λ come. come.nets.keys };
}

impl Come {
    /// No net has come.
    pub fn none(alloc: Global) -> Come
        ensures { result ≡ [] }
    {
        Come {
            nets: IndexSet::new(alloc),
        }
    }

    /// Notes that a net has come, last. Whether it comes for the first time, or `Memory` where there is no room.
    pub fn note(&mut self, net: u32) -> Result<bool, Memory>
        ensures first { IfOk result (λ first. first ≡ not (list_any (eqb net) self.old)) }
        ensures last { IfOk result (λ first. first ≡ true → self.new ≡ self.old ++ net ∷ []) }
        ensures once { IsDistinct eqb self.new }
    {
        let first = self.nets.insert(net)?;
        Ok(first)
    }
}
