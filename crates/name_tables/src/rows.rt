//! The rows of names.

ghost use Rattle.std.specs.Prelude.{◌≡◌, ◌≢◌, ℕ, ◌-◌, ◌<◌, ◌≤◌, ◌^◌, ◌++◌, [], ◌∷◌, List, Some, length, slice_index_or, IfOk, IfSome, IfNone, OnErr, OnOk, IsTrue, ◌↔◌};
ghost use Rattle.std.specs.List.{slice_get};
ghost use Rattle.name_tables.specs.Chains.{buckets_of, outside, rows_of, AreChains};
ghost use Rattle.name_tables.specs.Hashes.{hash_of};
ghost use Rattle.name_tables.specs.NameTables.{AreRows};

use crate::chains::Chains;
use crate::ordered_rows::OrderedRows;
use crate::same::is_same;
use crate::texts::Texts;
use std::alloc::Global;
use vg_num::Memory;

/// The rows of names: in chains by their hashes, and where a chain is full in order by the names.
#[derive(Drop)]
pub(crate) struct Rows {
    pub(crate) chains: Chains,
    pub(crate) ordered: OrderedRows,
}

/// Whether the text of a row is this name. `held` is the hash of the text, and `hash` that of the name.
fn is_named(texts: &Texts, row: usize, held: u32, name: &[u8], hash: u32) -> bool
    requires row { row < length texts.now }
    requires held { held ≡ hash_of (slice_index_or texts.now row []) }
    requires hash { hash ≡ hash_of name.now }
    ensures { IsTrue result ↔ (slice_index_or texts.now row [] ≡ name.now) }
{
    held == hash && is_same(texts.get(row), name)
}

impl Rows {
    /// No rows, and no buckets.
    pub(crate) fn empty(alloc: Global) -> Rows
        ensures rows { AreRows [] result }
        ensures buckets { buckets_of result.chains ≡ 0 }
    {
        Rows {
            chains: Chains::empty(alloc),
            ordered: OrderedRows::new(alloc),
        }
    }

    /// No rows, in so many buckets. Answers `Memory` where there is no room.
    pub(crate) fn new(alloc: Global, buckets: usize) -> Result<Rows, Memory>
        ensures rows { IfOk result (λ rows. AreRows [] rows) }
        ensures buckets { IfOk result (λ rows. buckets_of rows.chains ≡ buckets) }
    {
        let chains = Chains::new(alloc, buckets)?;
        let ordered = OrderedRows::new(alloc);
        Ok(Rows { chains, ordered })
    }

    /// The same rows once more. Answers `Memory` where there is no room.
    pub(crate) fn copy(&self, alloc: Global) -> Result<Rows, Memory>
        requires { AreChains self.now.chains }
        ensures rows { (names : List (List ℕ)) → AreRows names self.now → IfOk result (λ rows. AreRows names rows) }
        ensures buckets { IfOk result (λ rows. buckets_of rows.chains ≡ buckets_of self.now.chains) }
    {
        let chains = self.chains.copy(alloc)?;
        let ordered = self.ordered.copy()?;
        Ok(Rows { chains, ordered })
    }

    /// The row of a name of this hash. `None`: it is not there.
    pub(crate) fn find(&self, texts: &Texts, name: &[u8], hash: u32) -> Option<u32>
        requires rows { AreRows texts.now self.now }
        requires some { 0 < buckets_of self.now.chains }
        requires hash { hash ≡ hash_of name.now }
        ensures found { IfSome result (λ row. slice_get texts.now row ≡ Some name.now) }
        ensures absent { IfNone result ((row : ℕ) → slice_get texts.now row ≢ Some name.now) }
    {
        let mut next = self.chains.last(hash);
        'row: while next != 0 {
            let row = next as usize - 1;
            let link = self.chains.link(row);
            if is_named(texts, row, link.hash, name, hash) {
                return Some(next - 1);
            }
            next = link.before;
        }
        self.ordered.find(name)
    }

    /// Puts the row of a new name of this hash last. Answers `Memory` where there is no room; nothing changes then.
    pub(crate) fn push(&mut self, name: &[u8], hash: u32) -> Result<(), Memory>
        requires some { 0 < buckets_of self.old.chains }
        requires chains { AreChains self.old.chains }
        requires few { length (rows_of self.old.chains) < outside }
        requires hash { hash ≡ hash_of name.now }
        ensures last { (names : List (List ℕ)) → AreRows names self.old
            → ((row : ℕ) → slice_get names row ≢ Some name.now)
            → OnOk result (AreRows (names ++ name.now ∷ []) self.new) }
        ensures unchanged { (names : List (List ℕ)) → AreRows names self.old → OnErr result (AreRows names self.new) }
        ensures buckets { buckets_of self.new.chains ≡ buckets_of self.old.chains }
    {
        if !self.chains.is_full(hash) {
            return self.chains.push(hash);
        }
        let row = self.chains.len() as u32;
        self.chains.reserve()?;
        self.ordered.add(name, row)?;
        self.chains.push_outside()
    }
}
