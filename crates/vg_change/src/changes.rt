//! The change of a design, net by net.

ghost use Rattle.std.specs.Prelude.{◌≡◌, ◌<◌, true, None, Some, length, List, ℕ, IfOk, IfErr};
ghost use Rattle.std.specs.List.{All, AllPass, Contains};
ghost use Rattle.elmore.specs.Legal.{IsPlaced};
ghost use Rattle.elmore.specs.Placements.{IsPlacement};
ghost use Rattle.spef_file.specs.Tables.{is_section};
ghost use Rattle.spef_file.specs.declared.section.Section.{Section};
ghost use Rattle.ver_file.specs.Modules.{Denotes};
ghost use Rattle.vg_change.specs.Changes.{nothing, HasPut, IsBehind, IsFresh};
ghost use Rattle.vg_change.specs.Patches.{ArePatchesOf};
ghost use Rattle.vg_change.specs.Steps.{placed_by, placed_net, IsSplitOf};
ghost use Rattle.vg_change.specs.Taken.{taken};
ghost use Rattle.vg_design.specs.Nets.{IsPosedNet};
ghost use Rattle.vg_design.specs.Refusals.{IsJoined};
ghost use Rattle.vg_design.specs.Steps.{ArePins};
ghost use Rattle.vg_scan.specs.Printed.{is_solid};
ghost use Rattle.vg_split.specs.Conditions.{IsNamed};

use crate::cells::{push_cells, push_wires};
use crate::keeper::port_or_root;
use crate::prefix::taken;
use crate::rewires::push_rewires;
use crate::sections::sections_text;
use crate::taken_name::TakenName;
use elmore::Placement;
use name_tables::Texts;
use spef_file::SpefIndex;
use spef_net::ParNet;
use spef_write::sums;
use std::alloc::Global;
use std::marker::Model;
use ver_patch::{NewCells, Rewires, patch};
use vg_design::{Design, PinnedNet, PosedNet};
use vg_num::Memory;
use vg_patch::Patch;
use vg_scan::Span;
use vg_split::{Split, Stages};

/// What changes in a design when cells are put into nets: sections of its parasitics (SPEF, IEEE Std 1481), connections
/// of its netlist (Verilog, IEEE Std 1364), new cells and new nets.
#[derive(Drop)]
pub struct Changes<'a> {
    design: &'a Design,
    prefix: &'a [u8],
    sections: Patch,
    rewires: Rewires,
    cells: NewCells,
    wires: Texts,
}

/// What is replaced in the texts of a design.
#[derive(Drop)]
pub struct Patches {
    /// In that of the netlist.
    pub verilog: Patch,
    /// In that of the parasitics.
    pub spef: Patch,
}

impl<'a> Model for Changes<'a> {
    ghost use Rattle.vg_change.specs.Changes.{Changes as ChangesSpec, IsChange};

    ghost Value = { ChangesSpec };

    ghost view = { λ c. record {
      design = c.design.now;
      prefix = c.prefix.now;
      sections = c.sections;
      rewires = c.rewires;
      cells = c.cells;
      wires = c.wires;
    } };

    ghost invariant = { λ c. IsChange (record {
      design = c.design.now;
      prefix = c.prefix.now;
      sections = c.sections;
      rewires = c.rewires;
      cells = c.cells;
      wires = c.wires;
    }) };
}

/// Where the section of the net of a name stands in the parasitics.
fn span_of(index: &SpefIndex, name: &[u8]) -> Span
    requires { is_section index.now.sections name.now ≡ true }
    ensures { (section : Section) × Contains index.now.sections (name.now, section)
        × (result ≡ record { from = section.from; to = section.to }) }
{
    let Some(at) = index.sections.find(name) else {
        unreachable!()
    };
    let section = index.sections.get(at);
    Span {
        from: section.from as usize,
        to: section.to as usize,
    }
}

/// The parasitics of a posed net.
fn par_of(net: &PosedNet) -> &ParNet
    ensures { result.now ≡ net.now.ready.pinned.net.par }
{
    &net.ready.pinned.net.par
}

impl<'a> Changes<'a> {
    /// No change of a design yet. The names of new cells and nets are to begin with this prefix.
    ///
    /// A name of the design that begins with the prefix is the error, since a new one could be the same: the first one
    /// of the instances of the netlist, its nets, the names that the SPEF file maps, and its nets, each in the order of
    /// its file.
    pub fn new(
        alloc: Global,
        design: &'a Design,
        prefix: &'a [u8],
    ) -> Result<Changes<'a>, TakenName<'a>>
        requires prefix { AllPass is_solid prefix.now }
        requires repeaters { All IsNamed design.now.library.repeaters }
        ensures made { IfOk result (λ changes. changes ≡ nothing design.now prefix.now) }
        ensures free { IfOk result (λ _. taken design.now prefix.now ≡ None) }
        ensures taken { IfErr result (λ name. taken design.now prefix.now ≡ Some name) }
    {
        if let Some(name) = taken(design, prefix) {
            return Err(name);
        }
        Ok(Changes {
            design,
            prefix,
            sections: Patch::new(alloc),
            rewires: Rewires::new(alloc),
            cells: NewCells::new(alloc),
            wires: Texts::new(alloc),
        })
    }

    /// Besides what changed before, splits a net into stages.
    fn put_split(
        self,
        alloc: Global,
        x: &Split<'_>,
        pinned: &PinnedNet,
    ) -> Result<Changes<'a>, Memory>
        requires split { IsSplitOf self pinned.now.net x.now }
        requires joined { (name : List ℕ) × IsJoined self.design name pinned.now.net }
        requires pins { ArePins self.design pinned.now.net pinned.now.pins }
        requires behind { IsBehind self x.now.par.name }
        requires fresh { IsFresh self pinned.now.net.id }
        ensures { IfOk result (HasPut self.entry (placed_by pinned.now.net x.now)) }
    {
        let Changes {
            design,
            prefix,
            mut sections,
            mut rewires,
            mut cells,
            mut wires,
        } = self;
        let index = design.index();
        let span = span_of(index, x.par.name.as_bytes());
        let text = sections_text(alloc, x, &index.header, span.to - span.from)?;
        sections.replace_by(span, text)?;
        push_rewires(alloc, design, pinned, x, &mut rewires)?;
        push_cells(alloc, design.netlist(), pinned.net.id, x, &mut cells)?;
        push_wires(alloc, x, &mut wires)?;
        Ok(Changes {
            design,
            prefix,
            sections,
            rewires,
            cells,
            wires,
        })
    }

    /// Besides what changed before, puts the cells of a placement into a net: its section is replaced by those of its
    /// stages, each of its pins that is in a stage with a new net is linked to that net, and each cell is put in with
    /// its new net. Cells are numbered over all nets from 0, those of a net in tree order. Answers `Memory` where there
    /// is no room.
    pub fn put(
        self,
        alloc: Global,
        net: &PosedNet,
        placement: &Placement,
    ) -> Result<Changes<'a>, Memory>
        requires posed { (name : List ℕ) × IsPosedNet self.design name net.now }
        requires placement { IsPlacement net.now.problem placement.now.cells }
        requires placed { IsPlaced net.now.problem placement.now.cells }
        requires behind { IsBehind self net.now.ready.pinned.net.par.name }
        requires fresh { IsFresh self net.now.ready.pinned.net.id }
        ensures { IfOk result (HasPut self.entry (placed_net net.now placement.now.cells)) }
    {
        let par = par_of(net);
        let order = net.ready.order.as_slice();
        let cells = placement.cells.as_slice();
        let stages = Stages::of(alloc, &net.problem, cells)?;
        let sums = sums(alloc, par.nodes.len(), par.caps.as_slice())?;
        let port = port_or_root(par, order);
        let split = Split {
            par,
            order,
            problem: &net.problem,
            cells,
            repeaters: self.design.repeaters(),
            stages: &stages,
            sums: &sums,
            prefix: self.prefix,
            first: self.cells.len() as u64,
            keeper: stages.stage_of[port],
        };
        self.put_split(alloc, &split, &net.ready.pinned)
    }

    /// What is to be replaced in the texts of the design, so that they have this change: in the netlist's new nets
    /// stand behind the head of the module, connections are replaced, and new cells stand before its end; in the
    /// parasitics sections are replaced. All other bytes stay. Answers `Memory` where there is no room.
    pub fn patches(self, alloc: Global) -> Result<Patches, Memory>
        requires { (verilog : List ℕ) × Denotes verilog self.design.netlist }
        ensures { IfOk result (ArePatchesOf self.entry) }
    {
        let netlist = self.design.netlist();
        let verilog = patch(alloc, netlist, &self.rewires, &self.cells, &self.wires)?;
        Ok(Patches {
            verilog,
            spef: self.sections,
        })
    }
}
