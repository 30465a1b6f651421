//! Whether the name of a net begins with a prefix.

ghost use Rattle.std.specs.Prelude.{◌≡◌, ◌==◌, ◌++◌, [], ◌∷◌};
ghost use Rattle.std.specs.Fmt.{decimal};
ghost use Rattle.std.specs.List.{starts_with};
ghost use Rattle.std.specs.Str.{bytes_eq};
ghost use Rattle.vg_change.specs.Named.{begins};

use ver_module::Net;

/// Whether these are the digits of a number.
fn are_digits(number: u32, digits: &[u8]) -> bool
    ensures { result ≡ bytes_eq digits.now (decimal number) }
{
    let Some((last, front)) = digits.split_last() else {
        return false;
    };
    if *last != b'0' + (number % 10) as u8 {
        return false;
    }
    if number < 10 {
        front.is_empty()
    } else {
        are_digits(number / 10, front)
    }
}

/// Whether the digits of a number begin with these.
fn digits_begin_with(number: u32, start: &[u8]) -> bool
    ensures { result ≡ starts_with ◌==◌ (decimal number) start.now }
{
    if start.is_empty() || are_digits(number, start) {
        return true;
    }
    if number < 10 {
        false
    } else {
        digits_begin_with(number / 10, start)
    }
}

/// Whether what stands behind its identifier in the name of the bit of this number, without the `]`, begins with these
/// bytes.
fn bit_begins_with(bit: u32, rest: &[u8]) -> bool
    ensures { result ≡ starts_with ◌==◌ (91 ∷ decimal bit) rest.now }
{
    match rest.split_first() {
        Some((b'[', start)) => digits_begin_with(bit, start),
        Some(_) => false,
        None => true,
    }
}

/// Whether the name of a net begins with a prefix. It takes no memory.
pub(crate) fn begins_with(net: &Net<'_>, prefix: &[u8]) -> bool
    ensures { result ≡ begins net.now.name prefix.now }
{
    if net.base.starts_with(prefix) || net.is_named(prefix) {
        return true;
    }
    let Some(bit) = net.bit else {
        return false;
    };
    match prefix.strip_prefix(net.base) {
        Some(rest) => bit_begins_with(bit, rest),
        None => false,
    }
}

/// Whether a prefix goes on behind the name of an identifier with a `[`, as the names of bits do.
pub(crate) fn goes_on_as_bit(base: &[u8], prefix: &[u8]) -> bool
    ensures { result ≡ begins prefix.now (base.now ++ 91 ∷ []) }
{
    match prefix.strip_prefix(base) {
        Some(rest) => rest.starts_with(b"["),
        None => false,
    }
}
