//! Numbers as most files write them: digits, and a point and digits, of which few are needed.

ghost use Rattle.std.specs.Prelude.{◌≡◌, ◌*◌, ◌^◌, ◌≤◌, true, take, length, IfSome};
ghost use Rattle.std.specs.List.{list_all};
ghost use Rattle.vg_num.specs.Number.{is_digit, value_after, IsScaled};

/// The number that a text's first digits write after those of `front`, and how many digits they are. Digits that would
/// pass eighteen are left.
fn leading_digits(front: u64, text: &[u8]) -> (u64, usize)
    requires { front ≤ 10 ^ 18 }
    ensures value { result.0 ≡ value_after front (take result.1 text.now) }
    ensures digits { list_all is_digit (take result.1 text.now) ≡ true }
    ensures within { result.1 ≤ length text.now }
    ensures small { result.0 ≤ 10 ^ 18 }
{
    let mut value = front;
    let mut count = 0;
    'digit: while count < text.len() {
        let byte = text[count];
        if byte < b'0' || byte > b'9' || value >= 100_000_000_000_000_000 {
            break;
        }
        value = value * 10 + u64::from(byte - b'0');
        count += 1;
    }
    (value, count)
}

/// A value times ten to a power, where that is at most 10^15.
fn small_product(value: u64, power: usize) -> Option<u64>
    requires { value ≤ 10 ^ 18 }
    ensures { IfSome result (λ n. (value * 10 ^ power ≡ n) × (n ≤ 10 ^ 15)) }
{
    let mut product = value;
    'ten: for _turn in 0..power {
        if product > 100_000_000_000_000 {
            return None;
        }
        product *= 10;
    }
    if product > 1_000_000_000_000_000 {
        return None;
    }
    Some(product)
}

/// The text's value times ten to the places, where the text is digits, or digits, a point and no more digits than
/// places, and the value is small. `None`: it is another text.
pub(crate) fn plain_value(text: &[u8], places: i32) -> Option<u64>
    ensures { IfSome result (IsScaled places (10 ^ 15) text.now) }
{
    if places < 0 {
        return None;
    }
    let places = places as usize;
    let (whole, front) = leading_digits(0, text);
    if front == 0 {
        return None;
    }
    if front == text.len() {
        return small_product(whole, places);
    }
    if text[front] != b'.' {
        return None;
    }
    let rest = &text[front + 1..];
    let (value, back) = leading_digits(whole, rest);
    if back < rest.len() || back > places {
        return None;
    }
    small_product(value, places - back)
}
