//! Pins that are linked to other nets, with the texts of these in one buffer.

ghost use Rattle.std.specs.Prelude.{◌≡◌, ◌++◌, ◌<◌, ◌∷◌, [], length, OnErr, OnOk};
ghost use Rattle.ver_patch.specs.Orders.{rewire_at};

use std::alloc::Global;
use std::marker::Model;
use ver_net::PinRef;
use vg_num::Memory;
use vg_scan::{Span, text_at};

/// A pin, and where the text of its net stands.
#[derive(Clone, Copy, Debug)]
struct Place {
    at: PinRef,
    from: usize,
    to: usize,
}

/// Pins that are linked to one net each, and the texts of the nets that they are to be linked to, one after another.
/// These stand in one buffer, so that none of them takes memory of its own. Contracts see the list of pins, each with
/// its net.
#[derive(Drop)]
pub struct Rewires {
    text: Vec<u8>,
    places: Vec<Place>,
}

impl Model for Rewires {
    ghost use Rattle.std.specs.Prelude.{List, map, length};
    ghost use Rattle.std.specs.List.{All};
    ghost use Rattle.ver_patch.specs.RewirePlaces.{rewire_in, IsPlace};
    ghost use Rattle.ver_patch.specs.Rewires.{Rewire};

    ghost Value = { List Rewire };

    ghost view = { λ rewires. map (rewire_in rewires.text.items) rewires.places.items };

    ghost invariant = { λ rewires. All (IsPlace (length rewires.text.items)) rewires.places.items };
}

impl Rewires {
    /// No pins.
    pub fn new(alloc: Global) -> Rewires
        ensures { result ≡ [] }
    {
        Rewires {
            text: Vec::new(alloc),
            places: Vec::new(alloc),
        }
    }

    /// How many pins there are.
    pub fn len(&self) -> usize
        ensures { result ≡ length self.now }
    {
        self.places.len()
    }

    /// Puts a pin last that is to be linked to a net. Answers `Memory` where there is no room; nothing changes then.
    pub fn push(&mut self, at: PinRef, net: &[u8]) -> Result<(), Memory>
        ensures last { OnOk result (self.new ≡ self.old ++ record { at = at; net = net.now } ∷ []) }
        ensures unchanged { OnErr result (self.new ≡ self.old) }
    {
        let from = self.text.len();
        let Ok(()) = self.text.extend_from_slice(net) else {
            return Err(Memory);
        };
        let to = self.text.len();
        match self.places.push(Place { at, from, to }) {
            Ok(()) => Ok(()),
            Err(_) => {
                self.text.truncate(from);
                Err(Memory)
            }
        }
    }

    /// The pin of a number, from 0.
    pub fn pin(&self, number: usize) -> PinRef
        requires { number < length self.now }
        ensures { result ≡ (rewire_at self.now number).at }
    {
        self.places[number].at
    }

    /// The net that the pin of a number is to be linked to.
    pub fn net(&self, number: usize) -> &[u8]
        requires { number < length self.now }
        ensures { result.now ≡ (rewire_at self.now number).net }
    {
        let place = self.places[number];
        let Place { from, to, .. } = place;
        text_at(&self.text, Span { from, to })
    }
}
