ghost use Rattle.std.specs.Prelude.{pos, ◌≤ℤ◌};

use vg_scan::Chars;

/// What the header of a SPEF file (IEEE Std 1481) says of its names and numbers.
#[derive(Clone, Copy, Debug)]
pub struct Header {
    /// The bytes that have a meaning in names.
    pub chars: Chars,
    /// How many decimal places turn a capacitance into attofarads.
    pub c_places: i32,
    /// How many decimal places turn a resistance into milliohms.
    pub r_places: i32,
    ghost c_low: { pos 0 ≤ℤ c_places },
    ghost c_high: { c_places ≤ℤ pos 9 },
    ghost r_low: { pos 0 ≤ℤ r_places },
    ghost r_high: { r_places ≤ℤ pos 9 },
}
