//! The index of a SPEF file.

ghost use Rattle.std.specs.Prelude.{◌≡◌, length};

use crate::header::Header;
use crate::name_map::NameMap;
use crate::sections::Sections;

/// The index of a SPEF file (IEEE Std 1481).
#[derive(Drop)]
pub struct SpefIndex {
    pub header: Header,
    pub map: NameMap,
    pub sections: Sections,
}

impl SpefIndex {
    /// How many nets the file has.
    pub fn net_count(&self) -> usize
        ensures { result ≡ length self.now.sections }
    {
        self.sections.len()
    }
}
