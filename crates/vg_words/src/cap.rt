//! The cap on costs, as it is written.
ghost use Rattle.std.specs.Prelude.{◌≡◌};
ghost use Rattle.std.specs.Str.Parse.{starts_with_minus};
ghost use Rattle.vg_words.specs.Request.{cap_in};

use vg_num::read_whole;

fn begins_with_minus(text: &[u8]) -> bool
    ensures { result ≡ starts_with_minus text.now }
{
    matches!(text, [b'-', ..])
}

/// The number that a text writes, if it is 1 to 18 digits.
pub(crate) fn cap_in(text: &[u8]) -> Option<u64>
    ensures { result ≡ cap_in text.now }
{
    if text.len() > 18 || begins_with_minus(text) {
        return None;
    }
    let Ok(number) = read_whole(text) else {
        return None;
    };
    Some(number as u64)
}
