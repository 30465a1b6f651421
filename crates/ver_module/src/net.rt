//! A net, and the identifier that it is or is a bit of.

ghost use Rattle.std.specs.Prelude.{◌≡◌, ◌≢◌, ℕ, ◌<◌, ◌++◌, ◌^◌, Some, length, slice_get, IfSome, MatchOption, OnOk};
ghost use Rattle.std.specs.Fmt.{decimal};
ghost use Rattle.std.specs.Str.{bytes_eq};
ghost use Rattle.ver_module.specs.Netlists.{net_name, nets_by};
ghost use Rattle.ver_module.specs.Names.{IsBitName, IsNoBitName};
ghost use Rattle.ver_module.specs.Ranges.{bits_of};

use crate::direction::PortDir;
use crate::range::Range;
use itoa::Buffer;
use memchr::memrchr;
use std::marker::Model;
use vg_num::{Memory, print_signed, read_scaled, reads_scaled_again};

/// A net: a scalar, or one bit of a vector.
#[derive(Debug, Drop)]
pub struct Net<'a> {
    /// The name of its identifier.
    pub base: &'a [u8],
    /// The number of the bit. `None`: it is a scalar.
    pub bit: Option<u32>,
    /// Whether its identifier is an escaped one where it comes first.
    pub escaped: bool,
    /// The direction of the port that it is, or is a bit of.
    pub port: Option<PortDir>,
    /// Whether it is declared by `supply0` or `supply1`.
    pub supply: bool,
}

impl<'a> Model for Net<'a> {
    ghost use Rattle.ver_module.specs.Netlists.{Net as NetSpec, net_name};

    ghost Value = { NetSpec };

    ghost view = { λ net. record {
      name = net_name net.base.now net.bit;
      base = net.base.now;
      bit = net.bit;
      escaped = net.escaped;
      port = net.port;
      supply = net.supply;
    } };
}

/// The number that digits write as it is printed.
fn number_written(digits: &[u8]) -> Option<u32>
    ensures { MatchOption result ((bit : ℕ) → bit < 2 ^ 32 → digits.now ≢ decimal bit)
        (λ bit. digits.now ≡ decimal bit) }
{
    reads_scaled_again();
    let Ok(number) = read_scaled(digits, 0) else {
        return None;
    };
    let Ok(bit) = u32::try_from(number) else {
        return None;
    };
    if Buffer::new().format(bit).as_bytes() == digits {
        Some(bit)
    } else {
        None
    }
}

/// The identifier and the number of the bit whose name this is. `None`: it is the name of no bit.
pub(crate) fn bit_of(name: &[u8]) -> Option<(&[u8], u32)>
    ensures is { MatchOption result (IsNoBitName name.now) (λ found. IsBitName name.now found.0.now found.1) }
    ensures few { IfSome result (λ found. found.1 < 2 ^ 32) }
{
    let Some((b']', front)) = name.split_last() else {
        return None;
    };
    let open = memrchr(b'[', front)?;
    let bit = number_written(&front[open + 1..])?;
    Some((&front[..open], bit))
}

/// Whether this is the name of a bit of an identifier.
fn is_bit_of(base: &[u8], bit: u32, name: &[u8]) -> bool
    ensures { result ≡ bytes_eq (net_name base.now (Some bit)) name.now }
{
    match bit_of(name) {
        Some((own, number)) => number == bit && own == base,
        None => false,
    }
}

impl Net<'_> {
    /// Appends its name: that of its identifier, for a bit with its number in `[` and `]` after it. Answers `Memory`
    /// where there is no room.
    pub fn push_name(&self, to: &mut Vec<u8>) -> Result<(), Memory>
        ensures { OnOk result (to.new.items ≡ to.old.items ++ self.now.name) }
    {
        to.extend_from_slice(self.base)?;
        let Some(bit) = self.bit else {
            return Ok(());
        };
        to.push(b'[')?;
        print_signed(i128::from(bit), to)?;
        to.push(b']')?;
        Ok(())
    }

    /// Whether this is its name. It takes no memory.
    pub fn is_named(&self, name: &[u8]) -> bool
        ensures { result ≡ bytes_eq self.now.name name.now }
    {
        match self.bit {
            None => self.base == name,
            Some(bit) => is_bit_of(self.base, bit, name),
        }
    }
}

/// What holds of all nets of an identifier.
#[derive(Clone, Copy, Debug, PartialEq, Eq, Drop)]
pub struct Identifier {
    /// The bounds of the vector. `None`: it is a scalar.
    pub range: Option<Range>,
    /// Whether it is an escaped one where it comes first.
    pub escaped: bool,
    /// The direction of the port that it is.
    pub port: Option<PortDir>,
    /// Whether it is declared by `supply0` or `supply1`.
    pub supply: bool,
}

/// The bit of this number of a vector, counted from its left bound, or the one net of a scalar.
fn bit_at(range: Option<Range>, at: usize) -> Option<u32>
    requires { at < length (bits_of range) }
    ensures { slice_get (bits_of range) at ≡ Some result }
{
    match range {
        None => None,
        Some(range) => Some(range.bit(at)),
    }
}

impl Identifier {
    /// How many nets it has: one, or a bit for each number in its range.
    pub fn count(self) -> usize
        ensures { result ≡ length (bits_of self.range) }
    {
        match self.range {
            None => 1,
            Some(range) => range.count(),
        }
    }

    /// Its net of this number, counted from its left bound, where this is its name.
    pub(crate) fn net(self, base: &[u8], at: usize) -> Net<'_>
        requires { at < length (bits_of self.range) }
        ensures { slice_get (nets_by base.now self) at ≡ Some result }
    {
        Net {
            base,
            bit: bit_at(self.range, at),
            escaped: self.escaped,
            port: self.port,
            supply: self.supply,
        }
    }
}
