ghost use Rattle.std.specs.Prelude.{◌≡◌, ℕ, ◌+◌, ◌*◌, ◌^◌, ◌<◌, ◌≤◌, ◌≤ℤ◌, ℤ, pos, negsuc, min, length, ◌++◌, MatchBool, MatchResult};
ghost use Rattle.std.specs.Prelude.{true, is_some, ◌+ℤ◌, ◌-ℤ◌, [], take, slice_index, MatchOption};
ghost use Rattle.std.specs.Str.Parse.{starts_with_minus, without_leading_sign};
ghost use Rattle.std.specs.List.{list_all, before_first, after_first, position};
ghost use Rattle.vg_num.specs.Number.{scaled, is_number, is_negative, capped_value_of, StandsFor, is_digit, mantissa, exponent, has_exponent, value_of, value_after, signed_value_of, is_e, is_point, numerator, denominator, IsNearest, IsFault, IsScaled};

use crate::fault::NumFault;
use crate::plain::plain_value;
use crate::signed::with_sign;

/// No larger number is told apart.
pub(crate) const CAP: u128 = 1_000_000_000_000_000_000_000_000_000_000;

/// Where the first `e` stands.
fn e_at(text: &[u8]) -> Option<usize>
    ensures { result ≡ position is_e text.now }
{
    text.iter().position(|byte| *byte == b'e' || *byte == b'E')
}

/// Where the first point stands.
fn point_at(text: &[u8]) -> Option<usize>
    ensures { result ≡ position is_point text.now }
{
    text.iter().position(|byte| *byte == b'.')
}

/// What stands before the point of a mantissa.
fn before_point(text: &[u8]) -> &[u8]
    ensures { result.now ≡ before_first is_point text.now }
{
    match point_at(text) {
        Some(at) => &text[..at],
        None => text,
    }
}

/// What stands after the point of a mantissa.
fn after_point(text: &[u8]) -> &[u8]
    ensures { result.now ≡ after_first is_point text.now }
{
    match point_at(text) {
        Some(at) => &text[at + 1..],
        None => &text[..0],
    }
}

/// The text before its first `e`, without a sign.
#[tactic(auto, unfolding(crate::specs::Number::mantissa))]
fn mantissa_of(text: &[u8]) -> &[u8]
    ensures { result.now ≡ mantissa text.now }
{
    match e_at(text) {
        Some(at) => without_sign(&text[..at]),
        None => without_sign(text),
    }
}

/// What follows the first `e`.
#[tactic(auto, unfolding(crate::specs::Number::exponent))]
fn exponent_of(text: &[u8]) -> Option<&[u8]>
    ensures given { is_some result ≡ has_exponent text.now }
    ensures text { MatchOption result (exponent text.now ≡ []) (λ found. found.now ≡ exponent text.now) }
{
    match e_at(text) {
        Some(at) => Some(&text[at + 1..]),
        None => None,
    }
}

/// The text without the sign that it may begin with.
fn without_sign(text: &[u8]) -> &[u8]
    ensures { result.now ≡ without_leading_sign text.now }
{
    match text {
        [b'-' | b'+', rest @ ..] => rest,
        _ => text,
    }
}

pub(crate) fn begins_with_minus(text: &[u8]) -> bool
    ensures { result ≡ starts_with_minus text.now }
{
    matches!(text, [b'-', ..])
}

pub(crate) fn are_digits(text: &[u8]) -> bool
    ensures { result ≡ list_all is_digit text.now }
{
    text.iter().all(|byte| b'0' <= *byte && *byte <= b'9')
}

/// The number that the digits write after those of `front`, or the cap where it is less.
pub(crate) fn capped_value(front: u128, digits: &[u8]) -> u128
    requires small { front ≤ CAP }
    ensures { result ≡ min (value_after front digits.now) CAP }
{
    let mut value = front;
    for byte in digits {
        let digit = (*byte).saturating_sub(b'0');
        let more = value * 10 + digit as u128;
        value = if more < CAP { more } else { CAP };
    }
    value
}

/// The number that a sign and digits write, its size at most the cap.
fn exponent_value(text: &[u8]) -> i128
    ensures value { result ≡ capped_value_of CAP text.now }
    ensures low { negsuc (10 ^ 30) ≤ℤ result }
    ensures high { result ≤ℤ pos (10 ^ 30) }
{
    with_sign(begins_with_minus(text), capped_value(0, without_sign(text)))
}

/// The value times ten to the power, or the cap where it is less.
fn times_power(front: u128, power: u128) -> u128
    requires { front ≤ CAP }
    ensures { result ≡ min (front * 10 ^ power) CAP }
{
    let turns = if power < 30 { power } else { 30 };
    let mut value = front;
    for i in 0..turns {
        let more = value * 10;
        value = if more < CAP { more } else { CAP };
    }
    value
}

/// The value of the first digits of both parts.
fn front_value(whole: &[u8], fraction: &[u8], kept: usize) -> u128
    requires { kept ≤ length whole.now + length fraction.now }
    ensures { result ≡ min (value_of (take kept (whole.now ++ fraction.now))) CAP }
{
    if kept < whole.len() {
        capped_value(0, &whole[..kept])
    } else {
        capped_value(capped_value(0, whole), &fraction[..kept - whole.len()])
    }
}

fn byte_at(whole: &[u8], fraction: &[u8], at: usize) -> u8
    requires { at < length whole.now + length fraction.now }
    ensures { result ≡ slice_index (whole.now ++ fraction.now) at }
{
    if at < whole.len() {
        whole[at]
    } else {
        fraction[at - whole.len()]
    }
}

/// The digits times ten to the power, or the cap where it is less.
fn digits_times_power(whole: &[u8], fraction: &[u8], power: u128) -> u128
    requires few { length whole.now + length fraction.now < 2 ^ 64 }
    ensures { result ≡ min (value_of (whole.now ++ fraction.now) * 10 ^ power) CAP }
{
    times_power(
        front_value(whole, fraction, whole.len() + fraction.len()),
        power,
    )
}

/// The nearest whole number to the digits divided by ten to the power, or the cap where it is less.
fn digits_over_power(whole: &[u8], fraction: &[u8], power: u128) -> u128
    requires digits { list_all is_digit (whole.now ++ fraction.now) ≡ true }
    requires few { length whole.now + length fraction.now < 2 ^ 64 }
    requires down { 0 < power }
    ensures { (n : ℕ) × IsNearest n (value_of (whole.now ++ fraction.now)) (10 ^ power) × (result ≡ min n CAP) }
{
    let count = whole.len() + fraction.len();
    if power > count as u128 {
        return 0;
    }
    let kept = count - power as usize;
    let value = front_value(whole, fraction, kept);
    let next = byte_at(whole, fraction, kept);
    if value < CAP && next >= b'5' {
        value + 1
    } else {
        value
    }
}

/// The nearest whole number to the digits times ten to the power, or the cap where it is less.
fn nearest_whole(whole: &[u8], fraction: &[u8], power: i128) -> u128
    requires digits { list_all is_digit (whole.now ++ fraction.now) ≡ true }
    requires few { length whole.now + length fraction.now < 2 ^ 64 }
    requires low { negsuc (10 ^ 33) ≤ℤ power }
    requires high { power ≤ℤ pos (10 ^ 33) }
    ensures { (n : ℕ) × IsNearest n (numerator power (value_of (whole.now ++ fraction.now))) (denominator power)
        × (result ≡ min n CAP) }
{
    if power >= 0 {
        digits_times_power(whole, fraction, power as u128)
    } else {
        digits_over_power(whole, fraction, (-power) as u128)
    }
}

#[tactic(auto, unfolding(crate::specs::Number::is_number, crate::specs::Number::whole, crate::specs::Number::fraction))]
pub(crate) fn is_number(text: &[u8]) -> bool
    ensures { result ≡ is_number text.now }
{
    let mantissa = mantissa_of(text);
    let whole = before_point(mantissa);
    let fraction = after_point(mantissa);
    if whole.is_empty() && fraction.is_empty() {
        return false;
    }
    if !are_digits(whole) || !are_digits(fraction) {
        return false;
    }
    match exponent_of(text) {
        None => true,
        Some(digits) => {
            let digits = without_sign(digits);
            !digits.is_empty() && are_digits(digits)
        }
    }
}

#[tactic(auto, unfolding(crate::specs::Number::is_negative, crate::specs::Number::coefficient, crate::specs::Number::whole, crate::specs::Number::fraction))]
fn is_negative(text: &[u8]) -> bool
    ensures { result ≡ is_negative text.now }
{
    let mantissa = mantissa_of(text);
    let whole = before_point(mantissa);
    let fraction = after_point(mantissa);
    begins_with_minus(text) && capped_value(capped_value(0, whole), fraction) > 0
}

fn shift_exponent(exponent: i128, fraction: usize, places: i32) -> i128
    requires exponent_low { negsuc (10 ^ 30) ≤ℤ exponent }
    requires exponent_high { exponent ≤ℤ pos (10 ^ 30) }
    requires low { negsuc 59 ≤ℤ places }
    requires high { places ≤ℤ pos 60 }
    ensures value { result ≡ (exponent -ℤ pos fraction) +ℤ places }
    ensures low { negsuc (10 ^ 33) ≤ℤ result }
    ensures high { result ≤ℤ pos (10 ^ 33) }
{
    exponent - fraction as i128 + places as i128
}

/// The power of ten of the last of the fraction's digits, where the exponent's size is at most the cap.
fn power_of(text: &[u8], fraction: usize, places: i32) -> i128
    requires low { negsuc 59 ≤ℤ places }
    requires high { places ≤ℤ pos 60 }
    ensures value { result ≡ (capped_value_of CAP (exponent text.now) -ℤ pos fraction) +ℤ places }
    ensures low { negsuc (10 ^ 33) ≤ℤ result }
    ensures high { result ≤ℤ pos (10 ^ 33) }
{
    match exponent_of(text) {
        None => shift_exponent(0, fraction, places),
        Some(digits) => shift_exponent(exponent_value(digits), fraction, places),
    }
}

/// The size of what a number stands for, or the cap where it is less.
#[tactic(auto, unfolding(crate::specs::Number::power, crate::specs::Number::whole, crate::specs::Number::fraction, crate::specs::Number::coefficient))]
pub(crate) fn size_of(text: &[u8], places: i32) -> u128
    requires number { is_number text.now ≡ true }
    requires low { negsuc 59 ≤ℤ places }
    requires high { places ≤ℤ pos 60 }
    ensures { (n : ℕ) × StandsFor places text.now n × (result ≡ min n CAP) }
{
    let mantissa = mantissa_of(text);
    let whole = before_point(mantissa);
    let fraction = after_point(mantissa);
    nearest_whole(whole, fraction, power_of(text, fraction.len(), places))
}

/// The text's value times ten to the places, nearest whole, a half away from zero.
pub fn read_scaled(text: &[u8], places: i32) -> Result<u64, NumFault>
    requires low { negsuc 59 ≤ℤ places }
    requires high { places ≤ℤ pos 60 }
    // By the relation between a text and a fraction.
    ensures stands { MatchResult result (IsScaled places (10 ^ 15) text.now) (IsFault places (10 ^ 15) text.now) }
    // The same as a function.
    ensures exact { result ≡ scaled places (10 ^ 15) text.now }
{
    if let Some(number) = plain_value(text, places) {
        return Ok(number);
    }
    if !is_number(text) {
        return Err(NumFault::Form);
    }
    if is_negative(text) {
        return Err(NumFault::Negative);
    }
    let size = size_of(text, places);
    if size > 1_000_000_000_000_000 {
        return Err(NumFault::TooLarge);
    }
    Ok(size as u64)
}
