//! What attributes of a group give.

ghost use Rattle.std.specs.Prelude.{◌≡◌, ◌≤◌};
ghost use Rattle.lib_cells.specs.Values.{given, is_text, number_of, says, signed_of};

use lib_text::{Group, Statement};
use vg_num::{NumFault, read_scaled, read_signed};

/// The value of an attribute as a number without a sign.
pub(crate) fn number_of(
    group: &Group<'_>,
    places: u32,
    attribute: Statement,
) -> Result<u64, NumFault>
    requires { places ≤ 60 }
    ensures { result ≡ number_of group.now.text places attribute }
{
    read_scaled(group.value(attribute), places as i32)
}

/// The value of an attribute as a number with a sign.
pub(crate) fn signed_of(
    group: &Group<'_>,
    places: u32,
    attribute: Statement,
) -> Result<i128, NumFault>
    requires { places ≤ 60 }
    ensures { result ≡ signed_of group.now.text places attribute }
{
    read_signed(group.value(attribute), places as i32)
}

/// The number that an attribute of a group gives, where the group has the attribute and its value is a number.
pub fn given(group: &Group<'_>, name: &[u8], places: u32) -> Option<u64>
    requires { places ≤ 60 }
    ensures { result ≡ given group.now name.now places }
{
    let attribute = group.attribute(name)?;
    number_of(group, places, attribute).ok()
}

/// Whether an attribute of a group has this value.
pub fn says(group: &Group<'_>, name: &[u8], value: &[u8]) -> bool
    ensures { result ≡ says group.now name.now value.now }
{
    match group.value_in(name) {
        Some(text) => text == value,
        None => false,
    }
}
