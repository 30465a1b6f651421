//! Texts, compared.

ghost use Rattle.std.specs.Prelude.{◌≡◌};
ghost use Rattle.std.specs.Str.{bytes_eq};

/// Whether two texts are the same. It goes over them byte by byte: for texts as short as most names that is the
/// fastest.
#[inline(always)]
pub fn is_same(one: &[u8], other: &[u8]) -> bool
    ensures { result ≡ bytes_eq one.now other.now }
{
    if one.len() != other.len() {
        return false;
    }
    'byte: for at in 0..one.len() {
        if one[at] != other[at] {
            return false;
        }
    }
    true
}
