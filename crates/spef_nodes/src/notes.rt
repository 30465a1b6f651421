//! Notes of nodes, by the numbers of the nodes.

ghost use Rattle.std.specs.Prelude.{◌≡◌, ◌==◌, ℕ, ◌<◌, ◌≤◌, [], List, length, slice_index_or, if◌then◌else◌, vec_len, OnOk, OnErr, IfOk, ◌++◌, ◌∷◌};
ghost use Rattle.spef_nodes.specs.Nodes.{note_at, is_joined, is_starred, text_of, joined, starred};
ghost use Rattle.spef_nodes.specs.Notes.{note_in, IsMark};
ghost use Rattle.spef_nodes.specs.declared.notes.Mark.TheVariants.{Fresh};

use name_tables::Texts;
use std::alloc::Global;
use std::marker::Model;
use vg_num::Memory;

/// What is noted of a node, with the number of the note's text.
#[derive(Clone, Copy, Debug)]
pub(crate) enum Mark {
    /// Nothing.
    Fresh,
    /// The note of its connection.
    Joined(u32),
    /// The note of its first `*N` line.
    Starred(u32),
}

/// What is noted of nodes by their numbers: nothing, the note of a connection, or that of a `*N` line. Contracts see a
/// list; past its end nothing is noted.
#[derive(Drop)]
pub struct Notes {
    marks: Vec<Mark>,
    texts: Texts,
}

impl Model for Notes {
    ghost use Rattle.std.specs.Prelude.{List, length, map};
    ghost use Rattle.spef_nodes.specs.Nodes.{Note};
    ghost use Rattle.spef_nodes.specs.Notes.{note_in, AreMarks};

    ghost Value = { List Note };

    ghost view = { λ notes. map (note_in notes.texts) notes.marks.items };

    ghost invariant = { λ notes. AreMarks (length notes.texts) notes.marks.items };
}

fn mark_at(marks: &[Mark], at: usize) -> Mark
    ensures { result ≡ slice_index_or marks.now at Fresh }
{
    if at >= marks.len() {
        return Mark::Fresh;
    }
    marks[at]
}

/// The text of a mark.
fn text_in(texts: &Texts, mark: Mark) -> &[u8]
    requires { IsMark (length texts.now) mark }
    ensures { result.now ≡ text_of (note_in texts.now mark) }
{
    match mark {
        Mark::Fresh => b"",
        Mark::Joined(id) => texts.get(id as usize),
        Mark::Starred(id) => texts.get(id as usize),
    }
}

/// Makes the marks more than so many.
fn lengthen(marks: &mut Vec<Mark>, at: usize) -> Result<(), Memory>
    ensures same { (i : ℕ) → slice_index_or marks.new.items i Fresh ≡ slice_index_or marks.old.items i Fresh }
    ensures longer { OnOk result (at < vec_len marks.new) }
{
    'more: while marks.len() <= at {
        let Ok(()) = marks.push(Mark::Fresh) else {
            return Err(Memory);
        };
    }
    Ok(())
}

/// Puts a mark at a number. Answers `Memory` where there is no room; nothing changes then.
fn put(marks: &mut Vec<Mark>, at: usize, mark: Mark) -> Result<(), Memory>
    ensures put { OnOk result ((i : ℕ)
        → slice_index_or marks.new.items i Fresh ≡ (if i == at then mark else slice_index_or marks.old.items i Fresh)) }
    ensures same { OnErr result ((i : ℕ)
        → slice_index_or marks.new.items i Fresh ≡ slice_index_or marks.old.items i Fresh) }
{
    match lengthen(marks, at) {
        Ok(()) => {
            marks[at] = mark;
            Ok(())
        }
        Err(_) => Err(Memory),
    }
}

/// Puts a text last, and says its number. Answers `Memory` where there is no room; nothing changes then.
fn add_text(texts: &mut Texts, text: &[u8]) -> Result<u32, Memory>
    ensures number { IfOk result (λ id. id ≡ length texts.old) }
    ensures last { OnOk result (texts.new ≡ texts.old ++ text.now ∷ []) }
    ensures unchanged { OnErr result (texts.new ≡ texts.old) }
{
    let id = texts.len();
    if id > 0xFFFF_FFFF {
        return Err(Memory);
    }
    match texts.push(text) {
        Ok(()) => Ok(id as u32),
        Err(_) => Err(Memory),
    }
}

impl Notes {
    /// No notes.
    pub fn new(alloc: Global) -> Notes
        ensures { result ≡ [] }
    {
        Notes {
            marks: Vec::new(alloc),
            texts: Texts::new(alloc),
        }
    }

    /// Whether the node of a number has the note of a connection.
    pub fn is_joined(&self, at: usize) -> bool
        ensures { result ≡ is_joined (note_at self.now at) }
    {
        match mark_at(self.marks.as_slice(), at) {
            Mark::Joined(_) => true,
            Mark::Fresh => false,
            Mark::Starred(_) => false,
        }
    }

    /// Whether the node of a number has the note of a `*N` line.
    pub fn is_starred(&self, at: usize) -> bool
        ensures { result ≡ is_starred (note_at self.now at) }
    {
        match mark_at(self.marks.as_slice(), at) {
            Mark::Starred(_) => true,
            Mark::Fresh => false,
            Mark::Joined(_) => false,
        }
    }

    /// The note of the node of a number, which is empty where there is none.
    pub fn text(&self, at: usize) -> &[u8]
        ensures { result.now ≡ text_of (note_at self.now at) }
    {
        text_in(&self.texts, mark_at(self.marks.as_slice(), at))
    }

    /// Notes a connection at a number. Answers `Memory` where there is no room; nothing changes then.
    pub fn join(&mut self, at: u32, note: &[u8]) -> Result<(), Memory>
        ensures noted { OnOk result ((i : ℕ)
            → note_at self.new i ≡ (if i == at then joined note.now else note_at self.old i)) }
        ensures unchanged { OnErr result ((i : ℕ) → note_at self.new i ≡ note_at self.old i) }
    {
        let Ok(id) = add_text(&mut self.texts, note) else {
            return Err(Memory);
        };
        let Ok(()) = put(&mut self.marks, at as usize, Mark::Joined(id)) else {
            return Err(Memory);
        };
        Ok(())
    }

    /// Notes a `*N` line at a number. Answers `Memory` where there is no room; nothing changes then.
    pub fn star(&mut self, at: u32, note: &[u8]) -> Result<(), Memory>
        ensures noted { OnOk result ((i : ℕ)
            → note_at self.new i ≡ (if i == at then starred note.now else note_at self.old i)) }
        ensures unchanged { OnErr result ((i : ℕ) → note_at self.new i ≡ note_at self.old i) }
    {
        let Ok(id) = add_text(&mut self.texts, note) else {
            return Err(Memory);
        };
        let Ok(()) = put(&mut self.marks, at as usize, Mark::Starred(id)) else {
            return Err(Memory);
        };
        Ok(())
    }
}
