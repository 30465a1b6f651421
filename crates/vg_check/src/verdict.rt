/// What a check of a certificate finds: that it is valid, or the first of its parts that is not.
#[derive(Clone, Copy, Debug, PartialEq, Eq)]
pub enum Verdict {
    /// It is valid.
    Yes,
    /// The placement is not legal: the first node, in tree order, at which it is not.
    Illegal(u32),
    /// A sink has not the polarity that it wants: the first such node, in tree order.
    WrongPolarity(u32),
    /// The placement has another slack (zs) than the certificate says.
    WrongSlack { written: i128, real: i128 },
    /// The lists do not cover a node: the one of greatest number.
    Uncovered(u32),
    /// The lists leave room at the root for more slack (zs) than the certificate says: the most that they leave room
    /// for.
    NotBest { written: Option<i128>, bound: i128 },
}
