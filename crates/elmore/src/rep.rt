/// A repeater that may be placed: a buffer, or an inverter.
#[derive(Clone, Copy, Debug, PartialEq, Eq)]
pub struct Rep {
    /// Whether it inverts.
    pub inverts: bool,
    /// The capacitance of its input (aF).
    pub cin: u64,
    /// Its delay without a load (zs).
    pub k: u64,
    /// Its output resistance (mΩ).
    pub r: u64,
    /// What it costs (thousandths).
    pub cost: u64,
    /// The greatest load that it may charge (aF), if there is one.
    pub limit: Option<u64>,
}
