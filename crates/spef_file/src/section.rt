/// A net of a SPEF file (IEEE Std 1481): where it stands in the file.
#[derive(Clone, Copy, Debug)]
pub struct Section {
    /// Where the first word of its head begins.
    pub from: u32,
    /// Where the word `*END` ends.
    pub to: u32,
    /// The number of its head's line; the first line is 1.
    pub line: u32,
    /// Whether its head is `*R_NET`.
    pub reduced: bool,
}
