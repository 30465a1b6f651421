/// What a placement comes to at a node: the latest time at which the signal may reach it (zs), and the load that is
/// seen of it from above (aF).
#[derive(Clone, Copy, Debug, PartialEq, Eq)]
pub struct Pair {
    pub q: i128,
    pub c: u64,
}
