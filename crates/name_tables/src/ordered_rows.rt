//! Rows that are kept in the order of their texts.

ghost use Rattle.std.specs.Prelude.{◌≡◌, List, ℕ, None, Some, if◌then◌else◌, IfOk, OnOk, OnErr};
ghost use Rattle.std.specs.Str.{bytes_eq};
ghost use Rattle.name_tables.specs.OrderedRows.{row_kept};

use std::alloc::Global;
use std::collections::BTreeMap;
use vg_num::Memory;

/// Rows by their texts, which are kept in order. A look-up compares about as many texts as the logarithm of how many
/// there are, whatever they are.
#[derive(Drop)]
pub struct OrderedRows {
    alloc: Global,
    pub(crate) rows: BTreeMap<Vec<u8>, u32>,
}

impl OrderedRows {
    /// No rows.
    #[tactic(auto, unfolding(crate::specs::OrderedRows::row_kept))]
    pub fn new(alloc: Global) -> OrderedRows
        ensures { (text : List ℕ) → row_kept result text ≡ None }
    {
        OrderedRows {
            alloc,
            rows: BTreeMap::new(alloc),
        }
    }

    /// The same rows once more. Answers `Memory` where there is no room.
    pub fn copy(&self) -> Result<OrderedRows, Memory>
        ensures { IfOk result (λ rows. (text : List ℕ) → row_kept rows text ≡ row_kept self.now text) }
    {
        let rows = self.rows.clone()?;
        Ok(OrderedRows {
            alloc: self.alloc,
            rows,
        })
    }

    /// The row of a text. `None`: it is not there.
    #[tactic(auto, unfolding(crate::specs::OrderedRows::row_kept))]
    pub fn find(&self, text: &[u8]) -> Option<u32>
        ensures { result ≡ row_kept self.now text.now }
    {
        self.rows.get(text).copied()
    }

    /// Keeps a row by its text. Answers `Memory` where there is no room.
    #[tactic(auto, unfolding(crate::specs::OrderedRows::row_kept))]
    pub fn add(&mut self, text: &[u8], row: u32) -> Result<(), Memory>
        ensures added { OnOk result ((other : List ℕ) →
            row_kept self.new other ≡ (if bytes_eq text.now other then Some row else row_kept self.old other)) }
        ensures unchanged { OnErr result ((other : List ℕ) → row_kept self.new other ≡ row_kept self.old other) }
    {
        let text = Vec::from_slice(self.alloc, text)?;
        let Ok(_) = self.rows.insert(text, row) else {
            return Err(Memory);
        };
        Ok(())
    }
}
