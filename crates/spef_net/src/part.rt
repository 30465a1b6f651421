/// The part of a section in which a line stands: that of the last head before it.
#[derive(Clone, Copy, Debug, PartialEq, Eq)]
pub(crate) enum Part {
    /// No head has come.
    Nowhere,
    /// `*CONN`
    Conns,
    /// `*CAP`
    Caps,
    /// `*RES`
    Ress,
    /// `*INDUC`
    Inducs,
}
