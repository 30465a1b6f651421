ghost use Rattle.std.specs.Prelude.{◌≡◌};
ghost use Rattle.vg_num.specs.Number.{are_digits, whole_of, without_minus};

use crate::fault::NumFault;
use crate::read::{are_digits, begins_with_minus, capped_value};
use crate::signed::with_sign;

fn without_minus(text: &[u8]) -> &[u8]
    ensures { result.now ≡ without_minus text.now }
{
    if begins_with_minus(text) {
        &text[1..]
    } else {
        text
    }
}

/// One digit or more, and nothing else.
fn is_numeral(text: &[u8]) -> bool
    ensures { result ≡ are_digits text.now }
{
    !text.is_empty() && are_digits(text)
}

/// The whole number that the text writes: a minus or none, and then one digit or more.
///
/// Answers `Form` for any other text, also one with a plus, a point or an exponent, and `TooLarge` where the number is
/// over 10^26 in size. It never answers `Negative`.
pub fn read_whole(text: &[u8]) -> Result<i128, NumFault>
    ensures { result ≡ whole_of text.now }
{
    let digits = without_minus(text);
    if !is_numeral(digits) {
        return Err(NumFault::Form);
    }
    let size = capped_value(0, digits);
    if size > 100_000_000_000_000_000_000_000_000 {
        return Err(NumFault::TooLarge);
    }
    Ok(with_sign(begins_with_minus(text), size))
}
