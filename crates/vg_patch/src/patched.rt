//! Texts with replaced parts, piece by piece.

ghost use Rattle.std.specs.Prelude.{◌≡◌, length};
ghost use Rattle.std.specs.List.{concat};
ghost use Rattle.vg_patch.specs.Edits.{Rise, patched};

use crate::patch::Patch;
use std::marker::Model;
use vg_scan::{Span, text_at, text_from};

/// A text with parts of it replaced. It is not copied: its pieces are parts of the text that it comes of, and what
/// stands in place of the others. Contracts see its bytes.
#[derive(Drop)]
pub struct Patched {
    text: Vec<u8>,
    patch: Patch,
}

impl Model for Patched {
    ghost use Rattle.std.specs.Prelude.{List, ℕ, length};
    ghost use Rattle.vg_patch.specs.Edits.{Rise, patched};

    ghost Value = { List ℕ };

    ghost view = { λ it. patched it.text.items it.patch };

    ghost invariant = { λ it. Rise 0 (length it.text.items) it.patch };
}

impl Patched {
    /// A text with these parts of it replaced.
    pub fn new(text: Vec<u8>, patch: Patch) -> Patched
        requires { Rise 0 (length text.items) patch }
        ensures { result ≡ patched text.items patch }
    {
        Patched { text, patch }
    }

    /// Its pieces, one after another.
    pub fn pieces(&self) -> Pieces<'_>
        ensures { concat result ≡ self.now }
    {
        Pieces {
            text: &self.text,
            patch: &self.patch,
            number: 0,
            place: Place::Kept(0),
        }
    }
}

/// What the next piece is.
#[derive(Clone, Copy, Debug)]
enum Place<'a> {
    /// What is kept from this place on, up to the next part.
    Kept(usize),
    /// What stands in place of a part, which ends at this place.
    New(usize, &'a [u8]),
    /// There is none.
    End,
}

/// The pieces of a text with replaced parts. Contracts see the list of those that are left.
#[derive(Drop)]
pub struct Pieces<'a> {
    text: &'a [u8],
    patch: &'a Patch,
    /// The number of the next part.
    number: usize,
    place: Place<'a>,
}

impl<'a> Model for Pieces<'a> {
    ghost use Rattle.std.specs.Prelude.{List, ℕ, drop, length};
    ghost use Rattle.vg_patch.specs.Pieces.{pieces_at, IsPlace};

    ghost Value = { List (List ℕ) };

    ghost view = { λ left. pieces_at left.place left.text.now (drop left.number left.patch.now) };

    ghost invariant = { λ left. IsPlace left.place (length left.text.now) (drop left.number left.patch.now) };
}

impl<'a> Iterator for Pieces<'a> {
    ghost use Rattle.std.specs.Iterator.{YieldsFirstRef, item_count};

    type Item = &'a [u8];

    ghost next_gives = { YieldsFirstRef (λ left. left) };

    ghost remaining = { item_count (λ left. left) };

    fn next(&mut self) -> Option<&'a [u8]> {
        match self.place {
            Place::Kept(at) if self.number >= self.patch.len() => {
                self.place = Place::End;
                Some(text_from(self.text, at))
            }
            Place::Kept(at) => {
                let (part, text) = self.patch.part(self.number);
                self.number += 1;
                self.place = Place::New(part.to, text);
                let to = part.from;
                Some(text_at(self.text, Span { from: at, to }))
            }
            Place::New(at, text) => {
                self.place = Place::Kept(at);
                Some(text)
            }
            Place::End => None,
        }
    }
}
