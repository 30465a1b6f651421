//! Tables of names of which no number reaches 2^32.

ghost use Rattle.std.specs.Prelude.{◌≡◌, ◌<◌, ◌-◌, ◌^◌, ◌↔◌, Some, length, slice_get, IfOk, IsTrue, OnErr, OnOk};
ghost use Rattle.name_tables.specs.Distinct.{number_in, with_name};

use name_tables::{Names, is_same};
use vg_num::Memory;

/// The most names that a table takes.
pub(crate) const MOST: usize = 0xFFFF_FFFF;

/// The number of a name, which is put last where it is new. Answers `Memory` where there is no room, as where the table
/// has 2^32 - 1 names; nothing changes then.
pub fn name_number(names: &mut Names, name: &[u8]) -> Result<u32, Memory>
    ensures number { IfOk result (λ id. id ≡ number_in names.old name.now) }
    ensures names { OnOk result (names.new ≡ with_name names.old name.now) }
    ensures few { OnOk result (length names.old < 2 ^ 32 - 1) }
    ensures unchanged { OnErr result (names.new ≡ names.old) }
{
    if MOST <= names.len() {
        return Err(Memory);
    }
    let id = names.intern(name)?;
    Ok(id)
}

/// Whether the name of this number is this one.
fn is_number(names: &Names, id: u32, name: &[u8]) -> bool
    ensures { IsTrue result ↔ (slice_get names.now id ≡ Some name.now) }
{
    (id as usize) < names.len() && is_same(names.name(id), name)
}

/// The number of a name, which is put last where it is new. The names of numbers that it may have are compared with it
/// first: a good guess spares its hash. Answers `Memory` where there is no room, as where the table has 2^32 - 1 names;
/// nothing changes then.
pub(crate) fn number_by_guess(
    names: &mut Names,
    guesses: &[u32],
    name: &[u8],
) -> Result<u32, Memory>
    ensures number { IfOk result (λ id. slice_get names.new id ≡ Some name.now) }
    ensures names { OnOk result (names.new ≡ with_name names.old name.now) }
    ensures unchanged { OnErr result (names.new ≡ names.old) }
{
    'id: for id in guesses {
        if is_number(names, *id, name) {
            return Ok(*id);
        }
    }
    let id = name_number(names, name)?;
    Ok(id)
}
