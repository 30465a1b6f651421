/// What the first four lines of a certificate write.
#[derive(Clone, Copy)]
pub(crate) struct Head {
    pub slack: Option<i128>,
    /// How many cells there are.
    pub cells: usize,
}
