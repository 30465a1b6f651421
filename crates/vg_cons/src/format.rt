/// The version of a constraints text, which says what rows it may have.
#[derive(Clone, Copy, Debug, PartialEq, Eq)]
pub(crate) enum Format {
    /// `vgcons 1`
    First,
    /// `vgcons 2`: the rows `allow` and `block_box` too.
    Second,
}
