//! Names and their numbers.

ghost use Rattle.std.specs.Prelude.{◌≡◌, ◌≢◌, ◌==◌, ℕ, suc, ◌+◌, ◌-◌, ◌*◌, ◌<◌, ◌≤◌, ◌^◌, ◌++◌, [], ◌∷◌, List, length, slice_index_or, vec_len, IfOk, IfSome, IfNone, OnErr, OnOk, IsTrue, ◌↔◌};
ghost use Rattle.std.specs.Vec.{vec_capacity};
ghost use Rattle.name_tables.specs.Chains.{buckets_of};
ghost use Rattle.name_tables.specs.Distinct.{number_of, with_name, number_in};
ghost use Rattle.name_tables.specs.Hashes.{hash_of};
ghost use Rattle.name_tables.specs.NameTables.{AreDistinct, IsTable};

use crate::hash::hash_of;
use crate::rows::Rows;
use crate::texts::Texts;
use std::alloc::Global;
use std::marker::Model;
use vg_num::Memory;

/// How many buckets the first name brings. Each time that there are as many names as buckets, there are twice as many.
const FIRST_BUCKETS: usize = 8;

/// The most names that room is made for at first.
const MOST_ROOM: usize = 1 << 24;

/// Distinct names, numbered from 0 in the order in which they came first. Contracts see the list of names. They stand
/// in one buffer; a look-up hashes the name, and takes no memory.
#[derive(Drop)]
pub struct Names {
    alloc: Global,
    texts: Texts,
    rows: Rows,
}

impl Model for Names {
    ghost use Rattle.std.specs.Prelude.{List, ℕ};
    ghost use Rattle.name_tables.specs.NameTables.{IsTable};

    ghost Value = { List (List ℕ) };

    ghost view = { λ names. names.texts };

    ghost invariant = { λ names. IsTable names.texts names.rows };
}

/// Makes room for one name more. Answers `Memory` where there is none.
fn make_room(alloc: Global, texts: &Texts, rows: &mut Rows) -> Result<(), Memory>
    requires table { IsTable texts.now rows.old }
    requires few { length texts.now < 2 ^ 32 - 1 }
    ensures table { IsTable texts.now rows.new }
    ensures more { OnOk result (length texts.now < buckets_of rows.new.chains) }
{
    let count = texts.len();
    if count < rows.chains.buckets() {
        return Ok(());
    }
    if count > 0 {
        return rows.chains.double();
    }
    *rows = Rows::new(alloc, FIRST_BUCKETS)?;
    Ok(())
}

impl Names {
    /// No names.
    pub fn new(alloc: Global) -> Names
        ensures { result ≡ [] }
    {
        Names {
            alloc,
            texts: Texts::new(alloc),
            rows: Rows::empty(alloc),
        }
    }

    /// No names, with room for about so many, so that they are put into buckets once. Answers `Memory` where there is
    /// none.
    pub fn with_room(alloc: Global, count: usize) -> Result<Names, Memory>
        ensures { IfOk result (λ names. names ≡ []) }
    {
        let buckets = count.min(MOST_ROOM).next_power_of_two();
        let rows = Rows::new(alloc, buckets)?;
        let texts = Texts::new(alloc);
        Ok(Names { alloc, texts, rows })
    }

    /// The same names once more. Answers `Memory` where there is no room.
    pub fn copy(&self) -> Result<Names, Memory>
        ensures { IfOk result (λ names. names ≡ self.now) }
    {
        let texts = self.texts.copy(self.alloc)?;
        let rows = self.rows.copy(self.alloc)?;
        Ok(Names {
            alloc: self.alloc,
            texts,
            rows,
        })
    }

    /// A law: no name stands twice.
    pub fn are_distinct(&self)
        ensures { AreDistinct self.now }
    {
        let _ = &self.rows;
    }

    /// How many names there are.
    pub fn len(&self) -> usize
        ensures { result ≡ length self.now }
    {
        self.texts.len()
    }

    /// Whether there is no name.
    pub fn is_empty(&self) -> bool
        ensures { result ≡ (length self.now == 0) }
    {
        self.texts.is_empty()
    }

    /// The number of a name of this hash. `None`: it is not there.
    fn find_by_hash(&self, name: &[u8], hash: u32) -> Option<u32>
        requires { hash ≡ hash_of name.now }
        ensures { result ≡ number_of self.now name.now }
    {
        if self.rows.chains.buckets() == 0 {
            return None;
        }
        self.rows.find(&self.texts, name, hash)
    }

    /// The number of a name. `None`: it is not there.
    pub fn find(&self, name: &[u8]) -> Option<u32>
        ensures { result ≡ number_of self.now name.now }
    {
        self.find_by_hash(name, hash_of(name))
    }

    /// The number of a name, which is put last where it is new. Answers `Memory` where there is no room, as where all
    /// names would have 2^32 bytes or more.
    pub fn intern(&mut self, name: &[u8]) -> Result<u32, Memory>
        requires { length self.old < 2 ^ 32 - 1 }
        ensures number { IfOk result (λ id. id ≡ number_in self.old name.now) }
        ensures names { IfOk result (λ _. self.new ≡ with_name self.old name.now) }
        ensures unchanged { OnErr result (self.new ≡ self.old) }
    {
        let hash = hash_of(name);
        if let Some(id) = self.find_by_hash(name, hash) {
            return Ok(id);
        }
        let id = self.texts.len() as u32;
        make_room(self.alloc, &self.texts, &mut self.rows)?;
        self.texts.push(name)?;
        match self.rows.push(name, hash) {
            Ok(()) => Ok(id),
            Err(_) => {
                self.texts.pop();
                Err(Memory)
            }
        }
    }

    /// The name of a number.
    pub fn name(&self, id: u32) -> &[u8]
        requires { id < length self.now }
        ensures { result.now ≡ slice_index_or self.now id [] }
    {
        self.texts.get(id as usize)
    }
}
