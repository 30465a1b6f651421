//! The units of a header.

ghost use Rattle.std.specs.Prelude.{◌≡◌, ◌≤◌, IfSome};
ghost use Rattle.std.specs.Str.{str_eq_ignore_ascii_case};
ghost use Rattle.vg_scan.specs.Spans.{words_at};
ghost use Rattle.spef_file.specs.Units.{power_of, unit_power, places_of, unit_places};

use vg_num::read_scaled;
use vg_scan::{Span, text_at};

fn power_of(number: u64) -> Option<u8>
    ensures power { result ≡ power_of number }
    ensures small { IfSome result (λ power. power ≤ 6) }
{
    match number {
        1 => Some(0),
        10 => Some(1),
        100 => Some(2),
        1_000 => Some(3),
        10_000 => Some(4),
        100_000 => Some(5),
        1_000_000 => Some(6),
        _ => None,
    }
}

#[tactic(auto, unfolding(crate::specs::Units::unit_power))]
fn unit_power(word: &[u8]) -> Option<u8>
    ensures power { result ≡ unit_power word.now }
    ensures small { IfSome result (λ power. power ≤ 6) }
{
    match read_scaled(word, 3) {
        Ok(number) => power_of(number),
        Err(_) => None,
    }
}

fn is_like(word: &[u8], unit: &[u8]) -> bool
    ensures { result ≡ str_eq_ignore_ascii_case word.now unit.now }
{
    word.eq_ignore_ascii_case(unit)
}

fn places_of(small: &[u8], large: &[u8], unit: &[u8], power: u8) -> Option<u8>
    requires { power ≤ 6 }
    ensures places { result ≡ places_of small.now large.now unit.now power }
    ensures small { IfSome result (λ places. places ≤ 9) }
{
    if is_like(unit, small) {
        Some(power)
    } else if is_like(unit, large) {
        Some(power + 3)
    } else {
        None
    }
}

/// The decimal places of the thousandth of a small unit in a value of a line's unit, which is the small one or the
/// large one, of 1000 small ones, times a power of ten. `None`: the line gives no such unit.
pub(crate) fn unit_places(bytes: &[u8], words: &[Span], small: &[u8], large: &[u8]) -> Option<u8>
    ensures places { result ≡ unit_places small.now large.now (words_at bytes.now words.now) }
    ensures small { IfSome result (λ places. places ≤ 9) }
{
    let [_, number, unit] = words else {
        return None;
    };
    match unit_power(text_at(bytes, *number)) {
        None => None,
        Some(power) => places_of(small, large, text_at(bytes, *unit), power),
    }
}
