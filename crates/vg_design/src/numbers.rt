//! Numbers in a list.

ghost use Rattle.std.specs.Prelude.{◌≡◌, ◌++◌, ◌∷◌, [], OnOk, if◌then◌else◌};

use vg_num::Memory;

/// Puts a number last, where it passes.
pub(crate) fn push_where(passes: bool, number: u32, to: &mut Vec<u32>) -> Result<(), Memory>
    ensures { OnOk result (to.new.items ≡ to.old.items ++ (if passes then number ∷ [] else [])) }
{
    if passes {
        to.push(number)?;
    }
    Ok(())
}
