//! The slack that is enough, as it is written.
ghost use Rattle.std.specs.Prelude.{◌≡◌};
ghost use Rattle.vg_words.specs.Request.{target_in};

use vg_num::read_signed;

/// The time (zs) that a text writes in picoseconds, if it is a number of at most 10^23 zs in size.
pub(crate) fn target_in(text: &[u8]) -> Option<i128>
    ensures { result ≡ target_in text.now }
{
    read_signed(text, 9).ok()
}
