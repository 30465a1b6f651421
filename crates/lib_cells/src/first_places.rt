//! Where names come first in a list.

ghost use Rattle.std.specs.Prelude.{◌≡◌, ℕ, ◌++◌, [], ◌∷◌, List, length, IfOk, OnOk};
ghost use Rattle.std.specs.List.{position};
ghost use Rattle.std.specs.Str.{bytes_eq};
ghost use Rattle.lib_cells.specs.PinTables.{AreFirst};

use crate::related_pins::add_name;
use name_tables::{Names, Texts, is_same};
use std::alloc::Global;
use vg_num::Memory;

/// The names of a list, each once, and where each of them comes first.
#[derive(Drop)]
pub(crate) struct FirstPlaces {
    pub(crate) names: Names,
    pub(crate) places: Vec<u32>,
}

impl FirstPlaces {
    /// Those of no names.
    fn new(alloc: Global) -> FirstPlaces
        ensures { AreFirst [] result }
    {
        FirstPlaces {
            names: Names::new(alloc),
            places: Vec::new(alloc),
        }
    }

    /// Takes the next name of the list, which stands at this place.
    fn add(&mut self, name: &[u8], place: u32) -> Result<(), Memory>
        ensures { (names : List (List ℕ)) → AreFirst names self.old → place ≡ length names
            → OnOk result (AreFirst (names ++ name.now ∷ []) self.new) }
    {
        add_name(&mut self.names, name)?;
        if self.places.len() < self.names.len() {
            self.places.push(place)?;
        }
        Ok(())
    }

    /// Where the names of a list come first.
    pub(crate) fn of(alloc: Global, names: &Texts) -> Result<FirstPlaces, Memory>
        ensures { IfOk result (AreFirst names.now) }
    {
        let Ok(count) = u32::try_from(names.len()) else {
            return Err(Memory);
        };
        let mut first = FirstPlaces::new(alloc);
        'name: for at in 0..count {
            first.add(names.get(at as usize), at)?;
        }
        Ok(first)
    }

    /// Where a name comes first. `None`: the list does not have it.
    pub(crate) fn find(&self, name: &[u8]) -> Option<usize>
        ensures { (names : List (List ℕ)) → AreFirst names self.now → result ≡ position (bytes_eq name.now) names }
    {
        let number = self.names.find(name)?;
        let place = self.places.get(number as usize)?;
        Some(*place as usize)
    }
}

/// Where a name comes first in a list, by a walk over it. `None`: the list does not have it.
pub(crate) fn first_place(names: &Texts, name: &[u8]) -> Option<usize>
    ensures { result ≡ position (bytes_eq name.now) names.now }
{
    'name: for at in 0..names.len() {
        if is_same(name, names.get(at)) {
            return Some(at);
        }
    }
    None
}
