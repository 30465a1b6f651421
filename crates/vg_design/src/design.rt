//! The files of a design, read.

ghost use Rattle.std.specs.Prelude.{◌≡◌, ◌<◌, ◌≤◌, [], Some, length, option_copied, slice_get, unwrap_or, IfOk, IfSome};
ghost use Rattle.name_tables.specs.Distinct.{number_of};
ghost use Rattle.elmore.specs.Problems.{AreRising};
ghost use Rattle.lib_linear.specs.Libraries.{related_to};
ghost use Rattle.spef_file.specs.Indexes.{IsIndexOf};
ghost use Rattle.ver_net.specs.Connections.{is_tied, pins_on};
ghost use Rattle.vg_design.specs.Parts.{reps_of};
ghost use Rattle.vg_design.specs.Designs.{net_names};
ghost use Rattle.vg_design.specs.Steps.{IsPin};

use lib_linear::{Library, Repeater, related, repeaters};
use name_tables::Names;
use spef_file::{SpefIndex, SpefText};
use std::alloc::Global;
use std::marker::Model;
use ver_module::{Instance, Module, Net};
use ver_net::{Connections, PinRef, connect};
use vg_cons::Constraints;
use vg_num::Memory;

/// What the four files of a design say together: the parasitics of its nets (SPEF), its cells (Liberty), its netlist
/// (Verilog) and its constraints. Contracts see the SPEF text and what the other three denote.
pub struct Design {
    pub(crate) text: SpefText,
    pub(crate) index: SpefIndex,
    pub(crate) library: Library,
    pub(crate) module: Module,
    pub(crate) connections: Connections,
    pub(crate) cons: Constraints,
}

impl Model for Design {
    ghost use Rattle.vg_design.specs.Designs.{Design as DesignSpec};
    ghost use Rattle.vg_design.specs.Steps.{AreParts};

    ghost Value = { DesignSpec };

    ghost view = { λ d. record { spef = d.text; library = d.library; netlist = d.module; rows = d.cons } };

    ghost invariant = { λ d. AreParts d.text d.index d.library d.module d.connections };
}

impl Drop for Design {
    // Written out, so that it is one step in the proof of whoever drops it.
    fn drop(self) {
        let Design {
            text: _text,
            index: _index,
            library: _library,
            module: _module,
            connections: _connections,
            cons: _cons,
        } = self;
    }
}

impl Design {
    /// The design of these files.
    ///
    /// `index` is the index of the SPEF text, and the library has at most 256 repeaters, which stand by rising
    /// resistance. Answers `Memory` where there is no room for the connections of the nets.
    pub fn new(
        alloc: Global,
        text: SpefText,
        index: SpefIndex,
        library: Library,
        netlist: Module,
        cons: Constraints,
    ) -> Result<Design, Memory>
        requires index { IsIndexOf text index }
        requires rising { AreRising (reps_of library.repeaters) }
        requires few { length library.repeaters ≤ 256 }
        ensures spef { IfOk result (λ design. design.spef ≡ text) }
        ensures library { IfOk result (λ design. design.library ≡ library) }
        ensures netlist { IfOk result (λ design. design.netlist ≡ netlist) }
        ensures rows { IfOk result (λ design. design.rows ≡ cons) }
    {
        let connections = connect(alloc, &netlist)?;
        Ok(Design {
            text,
            index,
            library,
            module: netlist,
            connections,
            cons,
        })
    }

    /// The text of the SPEF file alone.
    pub fn into_text(self) -> SpefText
        ensures { result ≡ self.spef }
    {
        let Design {
            text,
            index: _index,
            library: _library,
            module: _module,
            connections: _connections,
            cons: _cons,
        } = self;
        text
    }

    /// How many nets the SPEF file has.
    pub fn net_count(&self) -> usize
        ensures { result ≡ length (net_names self.now.spef) }
    {
        self.index.net_count()
    }

    /// The canonical name of a net of the SPEF file, by its place in the order of the file, from 0. It takes no memory.
    pub fn net_name(&self, at: usize) -> &[u8]
        requires { at < length (net_names self.now.spef) }
        ensures { slice_get (net_names self.now.spef) at ≡ Some result.now }
    {
        self.index.sections.name(at)
    }

    /// The place of the first net of this name in the order of the SPEF file, from 0. `None`: the file has no such net.
    /// It takes no memory.
    pub fn find_section(&self, name: &[u8]) -> Option<usize>
        ensures place { result ≡ number_of (net_names self.now.spef) name.now }
        ensures within { IfSome result (λ at. at < length (net_names self.now.spef)) }
    {
        self.index.sections.find(name)
    }

    /// The index of the SPEF file.
    pub fn index(&self) -> &SpefIndex
        ensures { IsIndexOf self.now.spef result.now }
    {
        &self.index
    }

    /// The repeaters of the library, in the order in which problems number them. It takes no memory.
    pub fn repeaters(&self) -> &[Repeater]
        ensures { result.now ≡ self.now.library.repeaters }
    {
        repeaters(&self.library)
    }

    /// The pins that an output of a cell names as related, in the library, to be found by a table. `None`: there are
    /// none, as of any other pin. It takes no memory.
    pub fn related(&self, cell: &[u8], pin: &[u8]) -> Option<&Names>
        ensures { unwrap_or (option_copied result) [] ≡ related_to self.now.library cell.now pin.now }
    {
        related(&self.library, cell, pin)
    }

    /// The constraints.
    pub fn cons(&self) -> &Constraints
        ensures { result.now ≡ self.now.rows }
    {
        &self.cons
    }

    /// The netlist.
    pub fn netlist(&self) -> &Module
        ensures { result.now ≡ self.now.netlist }
    {
        &self.module
    }

    /// The net of this number in the netlist.
    pub(crate) fn net(&self, id: u32) -> Net<'_>
        requires { id < length self.now.netlist.nets }
        ensures { slice_get self.now.netlist.nets id ≡ Some result }
    {
        self.module.net(id)
    }

    /// The pins on a net, in the order of the text.
    pub(crate) fn pins_on(&self, id: u32) -> &[PinRef]
        requires { id < length self.now.netlist.nets }
        ensures { result.now ≡ pins_on self.now.netlist id }
    {
        self.connections.pins_of(id)
    }

    /// Whether a net is tied: it is a supply, or stands in an assignment or in a link to several nets.
    pub(crate) fn is_tied(&self, id: u32) -> bool
        requires { id < length self.now.netlist.nets }
        ensures { result ≡ is_tied self.now.netlist id }
    {
        self.connections.is_tied(id)
    }

    /// The instance of a pin.
    pub fn instance_of(&self, at: PinRef) -> Instance<'_>
        requires { IsPin self.now.netlist at }
        ensures { slice_get self.now.netlist.instances at.instance ≡ Some result }
    {
        self.module.instance(at.instance as usize)
    }
}
