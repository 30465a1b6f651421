//! Texts in one buffer.

ghost use Rattle.std.specs.Prelude.{◌≡◌, ◌==◌, ◌<◌, ◌-◌, ◌++◌, [], ◌∷◌, length, take, slice_index_or, ◌≤◌, IfOk, OnOk, OnErr};
ghost use Rattle.name_tables.specs.Texts.{start_of, texts_of};

use std::alloc::Global;
use std::marker::Model;
use vg_num::Memory;
use vg_scan::{Span, text_at};

/// Texts that stand one after another in one buffer, so that none of them takes memory of its own. Contracts see the
/// list of texts.
#[derive(Debug, Drop)]
pub struct Texts {
    bytes: Vec<u8>,
    /// Where each text ends; the next one begins there.
    ends: Vec<u32>,
}

impl Model for Texts {
    ghost use Rattle.std.specs.Prelude.{List, ℕ, length};
    ghost use Rattle.name_tables.specs.Texts.{texts_of, AreEnds};

    ghost Value = { List (List ℕ) };

    ghost view = { λ texts. texts_of texts.bytes.items 0 texts.ends.items };

    ghost invariant = { λ texts. AreEnds 0 texts.ends.items (length texts.bytes.items) };
}

fn start_of(ends: &[u32], at: usize) -> usize
    requires { at ≤ length ends.now }
    ensures { result ≡ start_of 0 ends.now at }
{
    if at == 0 { 0 } else { ends[at - 1] as usize }
}

/// The text of this number.
fn text_in<'a>(bytes: &'a [u8], ends: &[u32], at: usize) -> &'a [u8]
    requires { at < length ends.now }
    ensures { result.now ≡ slice_index_or (texts_of bytes.now 0 ends.now) at [] }
{
    let span = Span {
        from: start_of(ends, at),
        to: ends[at] as usize,
    };
    text_at(bytes, span)
}

impl Texts {
    /// No texts.
    pub fn new(alloc: Global) -> Texts
        ensures { result ≡ [] }
    {
        Texts {
            bytes: Vec::new(alloc),
            ends: Vec::new(alloc),
        }
    }

    /// The same texts once more. Answers `Memory` where there is no room.
    pub fn copy(&self, alloc: Global) -> Result<Texts, Memory>
        ensures { IfOk result (λ texts. texts ≡ self.now) }
    {
        let bytes = Vec::from_slice(alloc, &self.bytes)?;
        let ends = Vec::from_slice(alloc, &self.ends)?;
        Ok(Texts { bytes, ends })
    }

    /// How many texts there are.
    pub fn len(&self) -> usize
        ensures { result ≡ length self.now }
    {
        self.ends.len()
    }

    /// Whether there is no text.
    pub fn is_empty(&self) -> bool
        ensures { result ≡ (length self.now == 0) }
    {
        self.ends.is_empty()
    }

    /// The text of this number, counted from 0.
    pub fn get(&self, at: usize) -> &[u8]
        requires { at < length self.now }
        ensures { result.now ≡ slice_index_or self.now at [] }
    {
        text_in(self.bytes.as_slice(), self.ends.as_slice(), at)
    }

    /// Puts a text last. Answers `Memory` where there is no room, as where all texts would have 2^32 bytes or more.
    pub fn push(&mut self, text: &[u8]) -> Result<(), Memory>
        ensures last { OnOk result (self.new ≡ self.old ++ text.now ∷ []) }
        ensures unchanged { OnErr result (self.new ≡ self.old) }
    {
        let before = self.bytes.len();
        if before > 0xFFFF_FFFF || text.len() > 0xFFFF_FFFF - before {
            return Err(Memory);
        }
        let Ok(()) = self.bytes.extend_from_slice(text) else {
            return Err(Memory);
        };
        let end = (before + text.len()) as u32;
        match self.ends.push(end) {
            Ok(()) => Ok(()),
            Err(_) => {
                self.bytes.truncate(before);
                Err(Memory)
            }
        }
    }

    /// Takes the last text away.
    pub fn pop(&mut self)
        requires { 0 < length self.old }
        ensures { self.new ≡ take (length self.old - 1) self.old }
    {
        let last = self.ends.len() - 1;
        let start = start_of(self.ends.as_slice(), last);
        self.bytes.truncate(start);
        self.ends.truncate(last);
    }
}
