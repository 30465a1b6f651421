//! Values: one number, or three of which the middle one is taken.

ghost use Rattle.std.specs.Prelude.{◌≡◌, ◌^◌, ◌≤ℤ◌, ℤ, pos, Some, MatchOption, IfSome, ◌<◌, length};
ghost use Rattle.std.specs.List.{position};
ghost use Rattle.vg_num.specs.Number.{scaled};
ghost use Rattle.spef_net.specs.Statements.{is_colon, middle, value_in};
ghost use Rattle.spef_net.specs.Values.{IsNoValue, AreParts};

use vg_num::{NumFault, read_scaled};
use vg_scan::text_from;

fn colon_at(text: &[u8]) -> Option<usize>
    ensures place { result ≡ position is_colon text.now }
    ensures within { IfSome result (λ at. at < length text.now) }
{
    text.iter().position(|byte| *byte == b':')
}

/// The parts of a text that two colons make, if there are two.
fn three_parts<'a>(text: &'a [u8], at: usize) -> Option<(&'a [u8], &'a [u8], &'a [u8])>
    requires first { position is_colon text.now ≡ Some at }
    requires within { at < length text.now }
    ensures { MatchOption result (IsNoValue text.now) (λ parts. AreParts text.now parts.0.now parts.1.now parts.2.now) }
{
    let low = &text[..at];
    let rest = text_from(text, at + 1);
    match colon_at(rest) {
        None => None,
        Some(end) => {
            let typical = &rest[..end];
            let high = text_from(rest, end + 1);
            match colon_at(high) {
                None => Some((low, typical, high)),
                Some(_) => None,
            }
        }
    }
}

/// The middle one of three numbers, where all can be read.
fn read_middle(low: &[u8], typical: &[u8], high: &[u8], places: i32) -> Result<u64, NumFault>
    requires low { pos 0 ≤ℤ places }
    requires high { places ≤ℤ pos 9 }
    ensures { result
        ≡ middle (scaled places (10 ^ 15) low.now) (scaled places (10 ^ 15) typical.now)
        (scaled places (10 ^ 15) high.now) }
{
    read_scaled(low, places)?;
    let value = read_scaled(typical, places)?;
    read_scaled(high, places)?;
    Ok(value)
}

/// A value, in units of ten to the minus places. Answers the fault of its first number that has one, and `Form` where
/// it has two parts, or more than three.
///
/// Most values are one number, so that is tried first: no number has a colon.
pub(crate) fn read_value(text: &[u8], places: i32) -> Result<u64, NumFault>
    requires low { pos 0 ≤ℤ places }
    requires high { places ≤ℤ pos 9 }
    ensures { result ≡ value_in places text.now }
{
    match read_scaled(text, places) {
        Ok(value) => Ok(value),
        Err(fault) => match colon_at(text) {
            None => Err(fault),
            Some(at) => match three_parts(text, at) {
                None => Err(NumFault::Form),
                Some((low, typical, high)) => read_middle(low, typical, high, places),
            },
        },
    }
}
