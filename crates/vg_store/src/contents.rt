//! Files by name and number, as bytes in memory.
ghost use Rattle.std.specs.Prelude.{◌≡◌, ◌≢◌, ◌<◌, ◌≤◌, ℕ, List, Option, Some, None, IfOk, OnErr, option_map, vec_items};
ghost use Rattle.indexmap.specs.IndexMap.{index_map_len};
ghost use Rattle.vg_store.specs.Contents.{named, told_of};

use indexmap::IndexMap;
use std::alloc::{AllocError, Global};

/// The bytes of a file, where they are told.
pub type Told = Option<Vec<u8>>;

/// The number of this name. A new name is numbered, and no bytes are told of it; only it takes memory.
pub fn number_of(
    alloc: Global,
    files: &mut IndexMap<String, Told>,
    name: &str,
) -> Result<usize, AllocError>
    ensures kept { (file : List ℕ) → told_of files.new file ≡ told_of files.old file }
    ensures named { IfOk result (λ number. named files.new (Some number) ≡ Some name.now) }
    ensures stands { IfOk result (λ number. number < index_map_len files.new) }
    ensures longer { index_map_len files.old ≤ index_map_len files.new }
    ensures same_names { (number : Option ℕ) → ((n : ℕ) → number ≡ Some n → n < index_map_len files.old)
        → named files.new number ≡ named files.old number }
    ensures failed { OnErr result ((told_of files.old name.now ≡ None) × (files.new.entries ≡ files.old.entries)) }
{
    if let Some(number) = files.get_index_of(name) {
        return Ok(number);
    }
    let name = String::from_str(alloc, name)?;
    let (number, _) = files.insert_full(name, None)?;
    Ok(number)
}

/// Tells other bytes of the file of this number, or none.
pub fn replace_at(files: &mut IndexMap<String, Told>, number: usize, told: Told)
    requires stands { number < index_map_len files.old }
    ensures replaced { (name : List ℕ) → named files.old (Some number) ≡ Some name
        → told_of files.new name ≡ option_map vec_items told }
    ensures others { (other : List ℕ) → named files.old (Some number) ≢ Some other
        → told_of files.new other ≡ told_of files.old other }
    ensures same_names { (other : Option ℕ) → named files.new other ≡ named files.old other }
    ensures same_length { index_map_len files.new ≡ index_map_len files.old }
{
    let Some(file) = files.get_index_mut(number) else {
        unreachable!();
    };
    *file = told;
}
