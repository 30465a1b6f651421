/// What drives a net.
#[derive(Clone, Copy, Debug, PartialEq, Eq)]
pub struct Driver {
    /// Its delay without a load (zs).
    pub k: i128,
    /// Its output resistance (mΩ).
    pub r: u64,
    /// When the signal reaches it (zs).
    pub arrival: i128,
    /// The greatest load that it may charge (aF), if there is one.
    pub limit: Option<u64>,
}

/// What a net ends at.
#[derive(Clone, Copy, Debug, PartialEq, Eq)]
pub struct Sink {
    /// When the signal has to be there (zs).
    pub required: i128,
    /// Whether it is to be inverted there.
    pub inverted: bool,
}
