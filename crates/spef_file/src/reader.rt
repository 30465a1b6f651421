use crate::heading::Heading;
use crate::keyword::Region;
use crate::name_map::NameMap;
use crate::sections::Sections;

/// What the lines of a file have said so far.
#[derive(Drop)]
pub(crate) struct Reader {
    /// How many header lines there were.
    pub headed: usize,
    pub heading: Heading,
    pub region: Region,
    /// How many lines there were.
    pub count: usize,
    pub map: NameMap,
    pub nets: Sections,
}
