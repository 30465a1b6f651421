//! Rows in chains, by their hashes.

ghost use Rattle.std.specs.Prelude.{◌≡◌, ℕ, ◌+◌, ◌*◌, ◌<◌, ◌≤◌, ◌^◌, ◌-◌, ◌++◌, ◌∷◌, [], None, Some, true, length, take, slice_index, vec_len, IfOk, OnOk, OnErr, IsTrue, ◌↔◌};
ghost use Rattle.std.specs.Vec.{vec_capacity};
ghost use Rattle.name_tables.specs.Chains.{bucket_of, buckets_of, hash_at, hashes_in, is_in, rows_of, count_of, longest, outside, AreHalves, LeadsTo, AreLinks, AreChains};

use std::alloc::Global;
use vg_num::Memory;

/// The most rows of a chain. The table keeps further rows of its bucket elsewhere, so that a look-up goes over so many
/// rows at most, whatever their hashes are.
const LONGEST: u8 = 16;

/// What stands in the link of a row that is in no chain.
const OUTSIDE: u32 = u32::MAX;

/// The link of a row in a chain. It holds the row's hash, so that a look-up reads the text of no row of another hash.
#[derive(Clone, Copy, Debug)]
pub struct Link {
    /// One more than the number of the row before it in its bucket, or 0 for none. The greatest number says that the
    /// row is in no chain.
    pub before: u32,
    pub hash: u32,
}

/// Rows by their hashes: the rows of one bucket are found from the last one to the first, and no others. A row without
/// a hash is in no bucket.
#[derive(Debug, Drop)]
pub struct Chains {
    /// For each bucket one more than the number of its last row, or 0 for none.
    pub(crate) lasts: Vec<u32>,
    /// For each row its link.
    pub(crate) links: Vec<Link>,
}

/// The bucket of a hash among so many; each of them is used where they are a power of two. The upper half of the hash
/// counts too, so that numbers that are multiples of a power of two are not all in one bucket.
fn bucket_of(buckets: usize, hash: u32) -> usize
    requires { 0 < buckets }
    ensures bucket { result ≡ bucket_of buckets hash }
    ensures within { result < buckets }
{
    (hash ^ (hash >> 16)) as usize & (buckets - 1)
}

impl Chains {
    /// No buckets.
    pub fn empty(alloc: Global) -> Chains
        ensures chains { AreChains result }
        ensures rows { rows_of result ≡ [] }
        ensures buckets { buckets_of result ≡ 0 }
    {
        Chains {
            lasts: Vec::new(alloc),
            links: Vec::new(alloc),
        }
    }

    /// So many buckets without rows. Answers `Memory` where there is no room.
    pub fn new(alloc: Global, buckets: usize) -> Result<Chains, Memory>
        ensures chains { IfOk result (λ chains. AreChains chains) }
        ensures rows { IfOk result (λ chains. rows_of chains ≡ []) }
        ensures buckets { IfOk result (λ chains. buckets_of chains ≡ buckets) }
    {
        let lasts = vec![in alloc; 0u32; buckets]?;
        let links = Vec::with_capacity(alloc, buckets)?;
        Ok(Chains { lasts, links })
    }

    /// The same rows in the same buckets once more. Answers `Memory` where there is no room.
    pub fn copy(&self, alloc: Global) -> Result<Chains, Memory>
        requires { AreChains self.now }
        ensures chains { IfOk result (λ chains. AreChains chains) }
        ensures rows { IfOk result (λ chains. rows_of chains ≡ rows_of self.now) }
        ensures buckets { IfOk result (λ chains. buckets_of chains ≡ buckets_of self.now) }
    {
        let lasts = Vec::from_slice(alloc, &self.lasts)?;
        let links = Vec::from_slice(alloc, &self.links)?;
        Ok(Chains { lasts, links })
    }

    /// How many buckets there are.
    pub fn buckets(&self) -> usize
        ensures { result ≡ buckets_of self.now }
    {
        self.lasts.len()
    }

    /// How many rows there are.
    pub fn len(&self) -> usize
        ensures { result ≡ length (rows_of self.now) }
    {
        self.links.len()
    }

    /// One more than the number of the last row in the bucket of a hash, or 0 for none.
    pub fn last(&self, hash: u32) -> u32
        requires some { 0 < buckets_of self.now }
        requires chains { AreChains self.now }
        ensures { LeadsTo (buckets_of self.now) (rows_of self.now) (length (rows_of self.now))
            (bucket_of (buckets_of self.now) hash) result }
    {
        self.lasts[bucket_of(self.lasts.len(), hash)]
    }

    /// The link of a row.
    pub fn link(&self, row: usize) -> Link
        requires row { row < length (rows_of self.now) }
        requires chains { AreChains self.now }
        ensures hash { (bucket : ℕ) → is_in (buckets_of self.now) bucket (hash_at (rows_of self.now) row) ≡ true
            → hash_at (rows_of self.now) row ≡ Some result.hash }
        ensures before { (bucket : ℕ) → is_in (buckets_of self.now) bucket (hash_at (rows_of self.now) row) ≡ true
            → LeadsTo (buckets_of self.now) (rows_of self.now) row bucket result.before }
    {
        self.links[row]
    }

    /// Whether the bucket of a hash has as many rows as a chain has at most.
    pub fn is_full(&self, hash: u32) -> bool
        requires some { 0 < buckets_of self.now }
        requires chains { AreChains self.now }
        ensures { IsTrue result ↔ (longest ≤ count_of self.now hash) }
    {
        let mut next = self.last(hash);
        let mut count = 0u8;
        'row: while next != 0 && count < LONGEST {
            next = self.link(next as usize - 1).before;
            count += 1;
        }
        count == LONGEST
    }

    /// Makes room for one row more. Answers `Memory` where there is none.
    pub fn reserve(&mut self) -> Result<(), Memory>
        requires { AreChains self.old }
        ensures room { OnOk result (vec_len self.new.links < vec_capacity self.new.links) }
        ensures chains { AreChains self.new }
        ensures rows { rows_of self.new ≡ rows_of self.old }
        ensures buckets { buckets_of self.new ≡ buckets_of self.old }
    {
        let Ok(()) = self.links.reserve(1) else {
            return Err(Memory);
        };
        Ok(())
    }

    /// Puts a row last, of this hash. Answers `Memory` where there is no room.
    pub fn push(&mut self, hash: u32) -> Result<(), Memory>
        requires some { 0 < buckets_of self.old }
        requires chains { AreChains self.old }
        requires short { count_of self.old hash < longest }
        requires few { length (rows_of self.old) < outside }
        ensures chains { AreChains self.new }
        ensures last { OnOk result (rows_of self.new ≡ rows_of self.old ++ Some hash ∷ []) }
        ensures unchanged { OnErr result (rows_of self.new ≡ rows_of self.old) }
        ensures buckets { buckets_of self.new ≡ buckets_of self.old }
    {
        let bucket = bucket_of(self.lasts.len(), hash);
        let before = self.lasts[bucket];
        let Ok(()) = self.links.push(Link { before, hash }) else {
            return Err(Memory);
        };
        self.lasts[bucket] = self.links.len() as u32;
        Ok(())
    }

    /// Puts a row last, without a hash. Answers `Memory` where there is no room.
    pub fn push_outside(&mut self) -> Result<(), Memory>
        requires { AreChains self.old }
        ensures chains { AreChains self.new }
        ensures last { OnOk result (rows_of self.new ≡ rows_of self.old ++ None ∷ []) }
        ensures unchanged { OnErr result (rows_of self.new ≡ rows_of self.old) }
        ensures buckets { buckets_of self.new ≡ buckets_of self.old }
        ensures full { OnErr result (vec_capacity self.old.links ≤ vec_len self.old.links) }
    {
        let link = Link {
            before: OUTSIDE,
            hash: 0,
        };
        let Ok(()) = self.links.push(link) else {
            return Err(Memory);
        };
        Ok(())
    }

    /// Puts a row of a hash into its bucket, after the rows before it.
    fn relink(&mut self, row: usize)
        requires some { 0 < buckets_of self.old }
        requires row { (row < length self.old.links.items) × (row < outside) }
        requires linked { AreLinks (buckets_of self.old) self.old.lasts.items (take row self.old.links.items) }
        ensures linked { AreLinks (buckets_of self.new) self.new.lasts.items (take (row + 1) self.new.links.items) }
        ensures rows { rows_of self.new ≡ rows_of self.old }
        ensures buckets { buckets_of self.new ≡ buckets_of self.old }
    {
        let Link { before, hash } = self.links[row];
        if before == OUTSIDE {
            return;
        }
        let bucket = bucket_of(self.lasts.len(), hash);
        let before = self.lasts[bucket];
        self.links[row] = Link { before, hash };
        self.lasts[bucket] = row as u32 + 1;
    }

    /// Makes the buckets twice as many, by the hashes that the links keep. Answers `Memory` where there is no room;
    /// nothing changes then.
    pub(crate) fn double(&mut self) -> Result<(), Memory>
        requires some { (0 < buckets_of self.old) × (buckets_of self.old < outside) }
        requires halves { AreHalves (buckets_of self.old) }
        requires few { length (rows_of self.old) ≤ outside }
        requires chains { AreChains self.old }
        ensures chains { AreChains self.new }
        ensures rows { rows_of self.new ≡ rows_of self.old }
        ensures doubled { OnOk result (buckets_of self.new ≡ 2 * buckets_of self.old) }
        ensures unchanged { OnErr result (buckets_of self.new ≡ buckets_of self.old) }
    {
        let Ok(()) = self.lasts.resize(2 * self.lasts.len(), 0) else {
            return Err(Memory);
        };
        self.lasts.fill(0);
        'row: for row in 0..self.links.len() {
            self.relink(row);
        }
        Ok(())
    }
}
