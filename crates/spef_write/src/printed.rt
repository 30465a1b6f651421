//! Nodes of a net, printed.

ghost use Rattle.std.specs.Prelude.{◌≡◌, ◌==◌, ◌++◌, ◌∷◌, [], ◌<◌, length, OnOk};
ghost use Rattle.std.specs.List.{AllPass};
ghost use Rattle.vg_scan.specs.Printed.{is_solid, IsPrintable};
ghost use Rattle.spef_write.specs.Printed.{printed_at, printed_of};

use crate::line::print_node;
use std::alloc::Global;
use std::marker::Model;
use vg_num::Memory;
use vg_scan::{Chars, Span, text_at};

/// A node of a net, by the texts that name it.
#[derive(Clone, Copy, Debug)]
pub struct NodeText<'a> {
    pub owner: &'a [u8],
    /// Empty for a port.
    pub leaf: &'a [u8],
    /// Whether it is no connection.
    pub inner: bool,
    pub note: &'a [u8],
    /// Its capacitance (aF).
    pub charge: u64,
}

/// Where the name and the note of a node stand, one behind the other, and what else a section says of the node.
#[derive(Clone, Copy, Debug)]
pub(crate) struct Place {
    pub name: usize,
    pub note: usize,
    pub end: usize,
    pub charge: u64,
    pub inner: bool,
}

/// Nodes of a net as a section prints them, one after another. Each name is printed once, into one buffer. Contracts
/// see the list.
#[derive(Drop)]
pub struct Printed {
    text: Vec<u8>,
    places: Vec<Place>,
}

impl Model for Printed {
    ghost use Rattle.std.specs.Prelude.{List, map, length};
    ghost use Rattle.std.specs.List.{All};
    ghost use Rattle.spef_write.specs.Printed.{PrintedNode};
    ghost use Rattle.spef_write.specs.Places.{printed_in, IsPlace};

    ghost Value = { List PrintedNode };

    ghost view = { λ nodes. map (printed_in nodes.text.items) nodes.places.items };

    ghost invariant = { λ nodes. All (IsPlace (length nodes.text.items)) nodes.places.items };
}

impl Printed {
    /// No nodes.
    pub fn new(alloc: Global) -> Printed
        ensures { result ≡ [] }
    {
        Printed {
            text: Vec::new(alloc),
            places: Vec::new(alloc),
        }
    }

    /// Takes all nodes away; their room stays.
    pub fn clear(&mut self)
        ensures { self.new ≡ [] }
    {
        self.text.clear();
        self.places.clear();
    }

    /// How many nodes there are.
    pub fn len(&self) -> usize
        ensures { result ≡ length self.now }
    {
        self.places.len()
    }

    /// Whether there is no node.
    pub fn is_empty(&self) -> bool
        ensures { result ≡ (length self.now == 0) }
    {
        self.places.is_empty()
    }

    /// The printed name of the node of this number.
    pub(crate) fn name(&self, at: usize) -> &[u8]
        requires { at < length self.now }
        ensures { result.now ≡ (printed_at self.now at).name }
    {
        let place = &self.places[at];
        text_at(
            &self.text,
            Span {
                from: place.name,
                to: place.note,
            },
        )
    }

    /// The note of the node of this number.
    pub(crate) fn note(&self, at: usize) -> &[u8]
        requires { at < length self.now }
        ensures { result.now ≡ (printed_at self.now at).note }
    {
        let place = &self.places[at];
        text_at(
            &self.text,
            Span {
                from: place.note,
                to: place.end,
            },
        )
    }

    /// Whether the node of this number is no connection.
    pub(crate) fn is_inner(&self, at: usize) -> bool
        requires { at < length self.now }
        ensures { result ≡ (printed_at self.now at).inner }
    {
        self.places[at].inner
    }

    /// The capacitance of the node of this number.
    pub(crate) fn charge(&self, at: usize) -> u64
        requires { at < length self.now }
        ensures { result ≡ (printed_at self.now at).charge }
    {
        self.places[at].charge
    }

    /// Puts a node last. Answers `Memory` where there is no room.
    pub fn push(&mut self, node: &NodeText<'_>, chars: &Chars) -> Result<(), Memory>
        requires owner { IsPrintable node.now.owner.now }
        requires leaf { AllPass is_solid node.now.leaf.now }
        ensures { OnOk result (self.new ≡ self.old
            ++ printed_of chars.now
            (record { name = record { owner = node.now.owner.now; leaf = node.now.leaf.now }; inner = node.now.inner; note = node.now.note.now }) node.now.charge ∷ []) }
    {
        let name = self.text.len();
        print_node(node.owner, node.leaf, chars, &mut self.text)?;
        let note = self.text.len();
        self.text.extend_from_slice(node.note)?;
        let end = self.text.len();
        self.places.push(Place {
            name,
            note,
            end,
            charge: node.charge,
            inner: node.inner,
        })?;
        Ok(())
    }
}
