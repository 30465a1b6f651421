//! Look-ups in an index.

ghost use Rattle.std.specs.Prelude.{◌≡◌, ◌<◌, length, option_map, IfSome};
ghost use Rattle.std.specs.List.{position};
ghost use Rattle.std.specs.Str.{bytes_eq};
ghost use Rattle.spef_file.specs.Rows.{mapped};
ghost use Rattle.spef_file.specs.Tables.{names_of};

use crate::spef_index::SpefIndex;
use vg_scan::Name;

/// The place of the net of this name among an index's nets. `None`: no net has the name.
pub fn net_at(index: &SpefIndex, name: &Name) -> Option<usize>
    ensures place { result ≡ position (bytes_eq name.now) (names_of index.now.sections) }
    ensures within { IfSome result (λ place. place < length index.now.sections) }
{
    index.sections.find(name.as_bytes())
}

/// The name of an index of the name map, by its digits. `None`: it is not mapped.
pub fn mapped<'a>(index: &'a SpefIndex, digits: &[u8]) -> Option<&'a [u8]>
    ensures { option_map (λ name. name.now) result ≡ mapped index.now.map digits.now }
{
    index.map.find(digits)
}
