use vg_scan::Chars;

/// What the header has said so far.
#[derive(Clone, Copy)]
pub(crate) struct Heading {
    pub chars: Chars,
    /// The decimal places of a capacitance in attofarads.
    pub c_places: u8,
    /// The decimal places of a resistance in milliohms.
    pub r_places: u8,
}
