ghost use Rattle.std.specs.Prelude.{◌≡◌, ◌-◌, ◌≤◌, ◌==◌, if◌then◌else◌, [], ◌∷◌, ◌++◌, drop, OnOk, OnErr};
ghost use Rattle.std.specs.Fmt.{decimal, signed_decimal};
ghost use Rattle.vg_num.specs.Printed.{with_point, scaled_text};

use crate::memory::Memory;
use itoa::{Buffer, write_digits};

/// Room for the digits of any `u64`, a point and nine digits after it.
const ROOM: usize = 32;

/// Appends a whole number in decimal: a minus where it is negative, then its digits without a leading zero.
///
/// Answers `Memory` where there is no room, and then `to` is as before.
pub fn print_signed(n: i128, to: &mut Vec<u8>) -> Result<(), Memory>
    ensures printed { OnOk result (to.new.items ≡ to.old.items ++ signed_decimal n) }
    ensures unchanged { OnErr result (to.new.items ≡ to.old.items) }
{
    let mut buffer = Buffer::new();
    to.extend_from_slice(buffer.format(n).as_bytes())?;
    Ok(())
}

/// The number and the places with the zeros that end the fraction cancelled.
fn without_zeros(n: u64, places: u32) -> (u64, u32)
    ensures text { scaled_text n places ≡ (if result.1 == 0 then decimal result.0 else with_point result.0 result.1) }
    ensures few { result.1 ≤ places }
{
    let mut digits = n;
    let mut kept = places;
    'zeros: while kept > 0 && digits % 10 == 0 {
        digits /= 10;
        kept -= 1;
    }
    (digits, kept)
}

/// Writes the fraction's digits at the buffer's end, and gives the whole part.
fn write_fraction(n: u64, places: u32, buffer: &mut [u8; ROOM]) -> u64
    requires { places ≤ 9 }
    ensures { with_point n places ≡ (decimal result ++ 46 ∷ []) ++ drop (ROOM - places) buffer.new }
{
    let mut rest = n;
    'digits: for i in 0..places as usize {
        buffer[ROOM - 1 - i] = b'0' + (rest % 10) as u8;
        rest /= 10;
    }
    rest
}

/// Writes the text at the buffer's end, and gives where it begins.
fn write_scaled(n: u64, places: u32, buffer: &mut [u8; ROOM]) -> usize
    requires { places ≤ 9 }
    ensures within { result ≤ ROOM }
    ensures written { drop result buffer.new ≡ scaled_text n places }
{
    let (digits, kept) = without_zeros(n, places);
    if kept == 0 {
        return write_digits(digits, buffer, ROOM);
    }
    let whole = write_fraction(digits, kept, buffer);
    let point = ROOM - 1 - kept as usize;
    buffer[point] = b'.';
    write_digits(whole, buffer, point)
}

/// Appends the number divided by ten to the places, at most nine: the whole part and then, where the fraction is not
/// zero, a point and the fraction without zeros at its end. So 100000 at 3 places is `100`, and 1 is `0.001`.
///
/// Answers `Memory` where there is no room, and then `to` is as before.
pub fn print_scaled(n: u64, places: u32, to: &mut Vec<u8>) -> Result<(), Memory>
    requires { places ≤ 9 }
    ensures printed { OnOk result (to.new.items ≡ to.old.items ++ scaled_text n places) }
    ensures unchanged { OnErr result (to.new.items ≡ to.old.items) }
{
    let mut buffer = [0; ROOM];
    let start = write_scaled(n, places, &mut buffer);
    to.extend_from_slice(&buffer[start..])?;
    Ok(())
}
