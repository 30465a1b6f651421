//! Parts of a text that are to be replaced.

ghost use Rattle.std.specs.Prelude.{◌≡◌, ◌+◌, ◌++◌, [], ◌∷◌, ◌<◌, ◌≤◌, drop, length, OnErr, OnOk};
ghost use Rattle.vg_patch.specs.Edits.{edit_of, end_of};

use std::alloc::Global;
use std::marker::Model;
use vg_num::Memory;
use vg_scan::{Span, text_at};

/// A part, and where what is to stand in its place stands.
#[derive(Clone, Copy, Debug)]
struct Row {
    part: Span,
    from: usize,
    to: usize,
}

/// Parts of a text that are to be replaced, one after another, each with what is to stand in its place. These texts
/// stand in one buffer. Contracts see the list of parts.
#[derive(Drop)]
pub struct Patch {
    text: Vec<u8>,
    rows: Vec<Row>,
}

impl Model for Patch {
    ghost use Rattle.std.specs.Prelude.{List, length, map};
    ghost use Rattle.vg_patch.specs.Edits.{Edit};
    ghost use Rattle.vg_patch.specs.Rows.{edit_in, AreRows};

    ghost Value = { List Edit };

    ghost view = { λ patch. map (edit_in patch.text.items) patch.rows.items };

    ghost invariant = { λ patch. AreRows patch.text.items patch.rows.items };
}

impl Patch {
    /// No part.
    pub fn new(alloc: Global) -> Patch
        ensures { result ≡ [] }
    {
        Patch {
            text: Vec::new(alloc),
            rows: Vec::new(alloc),
        }
    }

    /// Replaces a part behind all others by a text. Answers `Memory` where there is no room.
    pub fn replace(&mut self, part: Span, text: &[u8]) -> Result<(), Memory>
        requires behind { end_of self.old ≤ part.from }
        requires part { part.from ≤ part.to }
        ensures last { OnOk result (self.new ≡ self.old ++ edit_of part text.now ∷ []) }
        ensures unchanged { OnErr result (self.new ≡ self.old) }
    {
        let from = self.text.len();
        let Ok(()) = self.text.extend_from_slice(text) else {
            return Err(Memory);
        };
        let to = self.text.len();
        match self.rows.push(Row { part, from, to }) {
            Ok(()) => Ok(()),
            Err(_) => {
                self.text.truncate(from);
                Err(Memory)
            }
        }
    }

    /// The same, where the text is given away: that of the first part is not copied.
    pub fn replace_by(&mut self, part: Span, text: Vec<u8>) -> Result<(), Memory>
        requires behind { end_of self.old ≤ part.from }
        requires part { part.from ≤ part.to }
        ensures last { OnOk result (self.new ≡ self.old ++ edit_of part text.items ∷ []) }
        ensures unchanged { OnErr result (self.new ≡ self.old) }
    {
        if !self.rows.is_empty() {
            return self.replace(part, &text);
        }
        let to = text.len();
        let Ok(()) = self.rows.push(Row { part, from: 0, to }) else {
            return Err(Memory);
        };
        self.text = text;
        Ok(())
    }

    /// How many parts there are.
    pub fn len(&self) -> usize
        ensures { result ≡ length self.now }
    {
        self.rows.len()
    }

    /// The part of a number, from 0, and what is to stand in its place.
    pub fn part(&self, number: usize) -> (Span, &[u8])
        requires { number < length self.now }
        ensures { drop number self.now ≡ edit_of result.0 result.1.now ∷ drop (number + 1) self.now }
    {
        let row = self.rows[number];
        let Row { part, from, to } = row;
        (part, text_at(&self.text, Span { from, to }))
    }
}
