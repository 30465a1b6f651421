//! Places in lists and texts, as rows keep them.

ghost use Rattle.std.specs.Prelude.{◌≡◌, IfOk};

use vg_num::Memory;

/// A place, in 32 bits. Answers `Memory` where it does not fit.
pub(crate) fn place(at: usize) -> Result<u32, Memory>
    ensures { IfOk result (λ place. place ≡ at) }
{
    match u32::try_from(at) {
        Ok(place) => Ok(place),
        Err(_) => Err(Memory),
    }
}
