//! Nets, many of which follow one another.

ghost use Rattle.std.specs.Prelude.{◌≡◌, ◌++◌, ◌∷◌, [], OnErr, OnOk};
ghost use Rattle.ver_module.specs.Ranges.{all_in, bits_from};

use crate::range::Range;
use std::alloc::Global;
use std::marker::Model;
use vg_num::Memory;

/// Nets by their numbers, in order and each as often as it was put there. Contracts see the list of them.
///
/// Nets that follow one another, up or down, are kept by the first and the last: all bits of a vector take the room of
/// one.
#[derive(Debug, Drop)]
pub struct Runs {
    runs: Vec<Range>,
}

impl Model for Runs {
    ghost use Rattle.std.specs.Prelude.{List, ℕ};
    ghost use Rattle.ver_module.specs.Ranges.{all_in};

    ghost Value = { List ℕ };

    ghost view = { λ nets. all_in nets.runs.items };
}

impl Runs {
    /// No nets.
    pub fn new(alloc: Global) -> Runs
        ensures { result ≡ [] }
    {
        Runs {
            runs: Vec::new(alloc),
        }
    }

    /// Puts a net last. Answers `Memory` where there is no room; nothing changes then.
    pub fn push(&mut self, net: u32) -> Result<(), Memory>
        ensures last { OnOk result (self.new ≡ self.old ++ net ∷ []) }
        ensures unchanged { OnErr result (self.new ≡ self.old) }
    {
        self.push_run(Range {
            left: net,
            right: net,
        })
    }

    /// Puts nets last that follow one another, from the first to the last. Answers `Memory` where there is no room;
    /// nothing changes then.
    pub fn push_run(&mut self, run: Range) -> Result<(), Memory>
        ensures last { OnOk result (self.new ≡ self.old ++ bits_from run) }
        ensures unchanged { OnErr result (self.new ≡ self.old) }
    {
        self.runs.push(run)?;
        Ok(())
    }

    /// The nets, as runs of such that follow one another.
    pub fn as_slice(&self) -> &[Range]
        ensures { all_in result.now ≡ self.now }
    {
        &self.runs
    }
}
