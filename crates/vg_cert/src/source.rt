use elmore::Problem;
use vg_scan::NetNames;

/// A text, with the problem and the names that it is read for.
#[derive(Drop)]
pub(crate) struct Source<'a> {
    pub bytes: &'a [u8],
    pub problem: &'a Problem,
    pub names: &'a NetNames,
}
