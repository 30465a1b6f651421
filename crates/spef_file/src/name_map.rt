//! The name map of a SPEF file.

ghost use Rattle.std.specs.Prelude.{◌≡◌, ◌==◌, ◌-◌, ◌<◌, ◌^◌, ◌++◌, ◌∷◌, [], not, true, length, option_map, Some, IfOk, OnErr};
ghost use Rattle.std.specs.List.{slice_get};
ghost use Rattle.spef_file.specs.Rows.{mapped, is_mapped};

use name_tables::{Names, Texts};
use std::alloc::Global;
use std::marker::Model;
use vg_num::Memory;

/// The rows of a name map: the digits of an index, and its canonical name. Contracts see the list of rows, in the order
/// of the file. All digits stand in one buffer, and all names in another.
#[derive(Drop)]
pub struct NameMap {
    indices: Names,
    names: Texts,
}

impl Model for NameMap {
    ghost use Rattle.std.specs.Prelude.{◌≡◌, ℕ, List, length};
    ghost use Rattle.std.specs.List.{zip};

    ghost Value = { List (List ℕ × List ℕ) };

    ghost view = { λ map. zip map.indices map.names };

    ghost invariant = { λ map. length map.indices ≡ length map.names };
}

impl NameMap {
    /// No rows.
    pub(crate) fn new(alloc: Global) -> NameMap
        ensures { result ≡ [] }
    {
        NameMap {
            indices: Names::new(alloc),
            names: Texts::new(alloc),
        }
    }

    /// How many rows there are.
    pub fn len(&self) -> usize
        ensures { result ≡ length self.now }
    {
        self.names.len()
    }

    /// Whether there is no row.
    pub fn is_empty(&self) -> bool
        ensures { result ≡ (length self.now == 0) }
    {
        self.len() == 0
    }

    /// The name of an index, by its digits. `None`: it has none.
    pub fn find(&self, digits: &[u8]) -> Option<&[u8]>
        ensures { option_map (λ name. name.now) result ≡ mapped self.now digits.now }
    {
        match self.indices.find(digits) {
            None => None,
            Some(row) => Some(self.names.get(row as usize)),
        }
    }

    /// The name of the row at a place.
    pub fn name(&self, at: usize) -> &[u8]
        requires { at < length self.now }
        ensures { option_map (λ row. row.1) (slice_get self.now at) ≡ Some result.now }
    {
        self.names.get(at)
    }

    /// Puts a row last where its index is new, and says whether it was.
    pub(crate) fn add(&mut self, digits: &[u8], name: &[u8]) -> Result<bool, Memory>
        requires { length self.old < 2 ^ 32 - 1 }
        ensures fresh { IfOk result (λ fresh. fresh ≡ not (is_mapped self.old digits.now)) }
        ensures last { IfOk result (λ fresh. fresh ≡ true → self.new ≡ self.old ++ (digits.now, name.now) ∷ []) }
        ensures unchanged { OnErr result (self.new ≡ self.old) }
    {
        if self.indices.find(digits).is_some() {
            return Ok(false);
        }
        let Ok(()) = self.names.push(name) else {
            return Err(Memory);
        };
        let Ok(_) = self.indices.intern(digits) else {
            self.names.pop();
            return Err(Memory);
        };
        Ok(true)
    }
}
