//! Wire widths: what each makes of a wire.

ghost use Rattle.std.specs.Prelude.{◌≡◌, ◌^◌, ◌≤◌};
ghost use Rattle.wire_widths.specs.Widths.{IsWidth, resistance_by, added_by};

/// A width that wires may have. It makes the resistance of a wire less, to `num / den` of what it is, and adds `add`
/// attofarads of capacitance for each ohm that the wire has without it.
#[derive(Clone, Copy, Debug, PartialEq, Eq)]
pub struct Width {
    pub num: u32,
    pub den: u32,
    /// The added capacitance (aF per Ω).
    pub add: u32,
}

/// The width of a wire that is as it is.
pub const PLAIN: Width = Width {
    num: 1,
    den: 1,
    add: 0,
};

impl Width {
    /// The resistance (mΩ) of a wire that has `r` without this width, to the nearest, a half upward.
    pub fn resistance(self, r: u64) -> u64
        requires width { IsWidth self }
        requires r { r ≤ 10 ^ 12 }
        ensures { result ≡ resistance_by self r }
    {
        let den = u64::from(self.den);
        (2 * (r * u64::from(self.num)) + den) / (2 * den)
    }

    /// The capacitance (aF) that this width adds to a wire of `r` mΩ, to the nearest, a half upward.
    pub fn added(self, r: u64) -> u64
        requires width { IsWidth self }
        requires r { r ≤ 10 ^ 12 }
        ensures { result ≡ added_by self r }
    {
        (2 * (r * u64::from(self.add)) + 1000) / 2000
    }
}
