//! Where a node lies, by its note.

ghost use Rattle.std.specs.Prelude.{◌≡◌};
ghost use Rattle.std.specs.List.{after_first};
ghost use Rattle.vg_scan.specs.Lines.{words};
ghost use Rattle.spef_net.specs.Positions.{is_mark, coordinate_of, position_of};

use vg_num::read_signed;
use vg_scan::Words;

/// The words after the first `*C` of a note.
fn words_after_mark(note: &[u8]) -> Words<'_>
    ensures { result ≡ after_first is_mark (words note.now) }
{
    let mut words = Words::new(note);
    'word: while let Some(word) = words.next() {
        if word == b"*C".as_slice() {
            return words;
        }
    }
    words
}

#[tactic(auto, unfolding(crate::specs::Positions::coordinate_of))]
fn read_coordinate(word: &[u8]) -> Option<i128>
    ensures { result ≡ coordinate_of word.now }
{
    match read_signed(word, 3) {
        Ok(number) => Some(number),
        Err(_) => None,
    }
}

/// The point (x, y) at which a node lies, by its note, in thousandths: the two words after the first `*C`. `None`:
/// there is no such word, fewer than two follow it, or one of them is no number whose value times 1,000 is at most
/// 10^23 in size. It takes no memory.
#[tactic(auto, unfolding(crate::specs::Positions::position_of))]
pub fn position(note: &[u8]) -> Option<(i128, i128)>
    ensures { result ≡ position_of note.now }
{
    let mut words = words_after_mark(note);
    let (Some(x), Some(y)) = (words.next(), words.next()) else {
        return None;
    };
    match (read_coordinate(x), read_coordinate(y)) {
        (Some(x), Some(y)) => Some((x, y)),
        _ => None,
    }
}
