//! How many bytes of one load, from the first, are printable.

ghost use Rattle.std.specs.Prelude.{◌≡◌, ◌+◌, ◌≤◌, length};
ghost use Rattle.std.specs.List.{prefix_len};
ghost use Rattle.std.specs.Simd.Lanes.{chunk};
ghost use Rattle.ver_text.specs.Bytes.{is_printable};
ghost use Rattle.ver_text.specs.Found.{first_set};

use std::simd::prelude::*;

/// How many bytes one load has.
pub(crate) const LANES: usize = 16;

#[inline(always)]
fn first_set(mask: u64) -> usize
    ensures { result ≡ first_set mask }
{
    if mask == 0 {
        LANES
    } else {
        mask.trailing_zeros() as usize
    }
}

/// How many bytes of the load at a place are printable, from the first.
#[inline(always)]
pub(crate) fn printable_lanes(text: &[u8], at: usize) -> usize
    requires { at + LANES ≤ length text.now }
    ensures { result ≡ prefix_len is_printable (chunk at 16 text.now) }
{
    let bytes = u8x16::from_slice(&text[at..]);
    let stops = bytes.simd_lt(u8x16::splat(b'!')) | bytes.simd_ge(u8x16::splat(0x7f));
    first_set(stops.to_bitmask())
}
