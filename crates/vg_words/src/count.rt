//! A size of a design and a number of parts, as they are written.
ghost use Rattle.std.specs.Prelude.{◌≡◌, ◌<◌, ◌^◌};
ghost use Rattle.vg_words.specs.Request.{count_in, parts_in, size_in};

use vg_num::read_whole;

/// The number that a text writes, if it is at most so many digits, which write 1 to `most`.
fn count_in(text: &[u8], digits: usize, most: u32) -> Option<u32>
    ensures { result ≡ count_in digits most text.now }
{
    let Ok(number) = read_whole(text) else {
        return None;
    };
    if text.len() > digits || number < 1 || number > i128::from(most) {
        return None;
    }
    Some(number as u32)
}

/// The number that a text writes, if it is one to four digits, which write 1 to 4000.
pub(crate) fn size_in(text: &[u8]) -> Option<u32>
    ensures { result ≡ size_in text.now }
{
    count_in(text, 4, 4000)
}

/// The number that a text writes, if it is one or two digits, which write 1 to 64.
pub(crate) fn parts_in(text: &[u8]) -> Option<u32>
    ensures { result ≡ parts_in text.now }
{
    count_in(text, 2, 64)
}
