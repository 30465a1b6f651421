ghost use Rattle.std.specs.Prelude.{◌≡◌, ◌^◌, ◌≤◌, ◌≤ℤ◌, ℤ, pos, negsuc, MatchResult};
ghost use Rattle.vg_num.specs.Number.{signed_scaled, with_sign, IsSigned, IsSignedFault};

use crate::fault::NumFault;
use crate::read::{CAP, begins_with_minus, is_number, size_of};

/// The size, negative after a minus.
pub(crate) fn with_sign(minus: bool, size: u128) -> i128
    requires { size ≤ CAP }
    ensures value { result ≡ with_sign minus size }
    ensures low { negsuc (10 ^ 30) ≤ℤ result }
    ensures high { result ≤ℤ pos (10 ^ 30) }
{
    let size = size as i128;
    if minus { -size } else { size }
}

/// The text's value times ten to the places, nearest whole, a half away from zero, with the text's sign: `-1.5` at 0
/// places is -2. What rounds to 0 is 0, whatever its sign.
///
/// Answers `Form` where the text is no decimal number, and `TooLarge` where the rounded value is over 10^23 in size. It
/// never answers `Negative`.
pub fn read_signed(text: &[u8], places: i32) -> Result<i128, NumFault>
    requires low { negsuc 59 ≤ℤ places }
    requires high { places ≤ℤ pos 60 }
    // By the relation between a text and a fraction.
    ensures stands { MatchResult result (IsSigned places (10 ^ 23) text.now) (IsSignedFault places (10 ^ 23) text.now) }
    // The same as a function.
    ensures exact { result ≡ signed_scaled places (10 ^ 23) text.now }
{
    if !is_number(text) {
        return Err(NumFault::Form);
    }
    let size = size_of(text, places);
    if size > 100_000_000_000_000_000_000_000 {
        return Err(NumFault::TooLarge);
    }
    Ok(with_sign(begins_with_minus(text), size))
}
