//! The text of a file that is written, piece by piece.

ghost use Rattle.std.specs.Prelude.{◌≡◌};
ghost use Rattle.std.specs.List.{concat};
ghost use Rattle.vg_answer.specs.NewTexts.{pieces_left, text_of};

use vg_patch::{Patched, Pieces};

/// The text of a file that is written.
#[derive(Drop)]
pub enum NewText {
    /// A text that was read, with parts of it replaced.
    Patched(Patched),
    /// A text that was made: its pieces, one after another.
    Made(Vec<Vec<u8>>),
}

/// The pieces of a text that are left.
#[derive(Drop)]
pub enum TextPieces<'a> {
    /// Those of a text with replaced parts.
    Patched(Pieces<'a>),
    /// Those of a text that was made.
    Made(&'a [Vec<u8>]),
}

impl NewText {
    /// Its pieces, one after another. Nothing is copied.
    pub fn pieces(&self) -> TextPieces<'_>
        ensures { concat (pieces_left result) ≡ text_of self.now }
    {
        match self {
            NewText::Patched(text) => TextPieces::Patched(text.pieces()),
            NewText::Made(pieces) => TextPieces::Made(pieces),
        }
    }
}

impl<'a> Iterator for TextPieces<'a> {
    ghost use Rattle.std.specs.Iterator.{YieldsFirstRef, item_count};
    ghost use Rattle.vg_answer.specs.NewTexts.{pieces_left};

    type Item = &'a [u8];

    ghost next_gives = { YieldsFirstRef pieces_left };

    ghost remaining = { item_count pieces_left };

    fn next(&mut self) -> Option<&'a [u8]> {
        match self {
            TextPieces::Patched(pieces) => pieces.next(),
            TextPieces::Made(pieces) => {
                let (first, others) = pieces.split_first()?;
                *pieces = others;
                Some(first.as_slice())
            }
        }
    }
}
