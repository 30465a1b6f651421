//! The nets of a SPEF file.

ghost use Rattle.std.specs.Prelude.{◌≡◌, ◌==◌, ◌-◌, ◌<◌, ◌^◌, ◌++◌, ◌∷◌, [], not, true, length, option_map, Some, IfOk, IfSome, OnErr};
ghost use Rattle.std.specs.List.{position, slice_get};
ghost use Rattle.std.specs.Str.{bytes_eq};
ghost use Rattle.spef_file.specs.Tables.{names_of, is_section};

use crate::section::Section;
use name_tables::Names;
use std::alloc::Global;
use std::marker::Model;
use vg_num::Memory;

/// The nets of a file: the canonical name of each, and where it stands. Contracts see the list of them, in the order of
/// the file. All names stand in one buffer.
#[derive(Drop)]
pub struct Sections {
    names: Names,
    rows: Vec<Section>,
}

impl Model for Sections {
    ghost use Rattle.std.specs.Prelude.{◌≡◌, ◌<◌, ◌^◌, ℕ, List, length};
    ghost use Rattle.std.specs.List.{zip};
    ghost use Rattle.spef_file.specs.declared.section.Section.{Section};

    ghost Value = { List (List ℕ × Section) };

    ghost view = { λ sections. zip sections.names sections.rows.items };

    ghost invariant = { λ sections. (length sections.names ≡ length sections.rows.items)
        × (length sections.names < 2 ^ 32) };
}

impl Sections {
    /// No nets.
    pub(crate) fn new(alloc: Global) -> Sections
        ensures { result ≡ [] }
    {
        Sections {
            names: Names::new(alloc),
            rows: Vec::new(alloc),
        }
    }

    /// How many nets there are.
    pub fn len(&self) -> usize
        ensures { result ≡ length self.now }
    {
        self.rows.len()
    }

    /// Whether there is no net.
    pub fn is_empty(&self) -> bool
        ensures { result ≡ (length self.now == 0) }
    {
        self.len() == 0
    }

    /// The place of the net of this name, from 0. `None`: no net has it.
    pub fn find(&self, name: &[u8]) -> Option<usize>
        ensures place { result ≡ position (bytes_eq name.now) (names_of self.now) }
        ensures within { IfSome result (λ place. place < length self.now) }
    {
        match self.names.find(name) {
            None => None,
            Some(id) => Some(id as usize),
        }
    }

    /// The canonical name of the net at a place.
    pub fn name(&self, at: usize) -> &[u8]
        requires { at < length self.now }
        ensures { option_map (λ net. net.0) (slice_get self.now at) ≡ Some result.now }
    {
        self.names.name(at as u32)
    }

    /// Where the net at a place stands.
    pub fn get(&self, at: usize) -> Section
        requires { at < length self.now }
        ensures { option_map (λ net. net.1) (slice_get self.now at) ≡ Some result }
    {
        self.rows.as_slice()[at]
    }

    /// Puts a net last where its name is new, and says whether it was.
    pub(crate) fn add(&mut self, name: &[u8], section: Section) -> Result<bool, Memory>
        requires { length self.old < 2 ^ 32 - 1 }
        ensures fresh { IfOk result (λ fresh. fresh ≡ not (is_section self.old name.now)) }
        ensures last { IfOk result (λ fresh. fresh ≡ true → self.new ≡ self.old ++ (name.now, section) ∷ []) }
        ensures unchanged { OnErr result (self.new ≡ self.old) }
    {
        if self.names.find(name).is_some() {
            return Ok(false);
        }
        let Ok(()) = self.rows.push(section) else {
            return Err(Memory);
        };
        let Ok(_) = self.names.intern(name) else {
            let _ = self.rows.pop();
            return Err(Memory);
        };
        Ok(true)
    }
}
