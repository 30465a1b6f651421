//! A module, and what it has.

ghost use Rattle.std.specs.Prelude.{◌≡◌, ◌<◌, Some, length, map, slice_get};
ghost use Rattle.std.specs.List.{All};
ghost use Rattle.name_tables.specs.Distinct.{number_of};
ghost use Rattle.ver_module.specs.Netlists.{AreWithin, IsSound, nets_in};
ghost use Rattle.ver_module.specs.Runs.{IsRun};

use crate::instances::{Instance, Instances};
use crate::net::Net;
use crate::nets::Nets;
use crate::runs::Runs;
use std::marker::Model;
use vg_scan::Name;

/// The module of a structural netlist. Contracts see its nets and its instances as lists.
///
/// Nets stand in the order in which their identifiers come first in the text, the bits of a vector from its left bound
/// on. A net is named by its number in this order, from 0 on. Instances stand in the order of the text.
#[derive(Drop)]
pub struct Module {
    name: Name,
    nets: Nets,
    instances: Instances,
    assigned: Runs,
    head_end: usize,
    end_at: usize,
}

impl Model for Module {
    ghost use Rattle.ver_module.specs.Netlists.{IsSound, Netlist, nets_in};

    ghost Value = { Netlist };

    ghost view = { λ m.
        record { name = m.name; nets = nets_in m.nets; instances = m.instances; assigned = m.assigned; head_end = m.head_end; end_at = m.end_at } };

    ghost invariant = { λ m. IsSound
        (record { name = m.name; nets = nets_in m.nets; instances = m.instances; assigned = m.assigned; head_end = m.head_end; end_at = m.end_at }) };
}

impl Module {
    /// The module of these nets, instances and assigned nets, where links and assignments have nets by their numbers.
    pub fn new(
        name: Name,
        nets: Nets,
        instances: Instances,
        assigned: Runs,
        head_end: usize,
        end_at: usize,
    ) -> Module
        requires links { AreWithin (length (nets_in nets)) instances }
        requires assigned { All (λ net. net < length (nets_in nets)) assigned }
        ensures { result
            ≡ record { name = name; nets = nets_in nets; instances = instances; assigned = assigned; head_end = head_end; end_at = end_at } }
    {
        nets.are_few();
        instances.are_few();
        Module {
            name,
            nets,
            instances,
            assigned,
            head_end,
            end_at,
        }
    }

    /// A law: a module links and assigns only nets that it has, and has fewer than 2^32 nets, instances, and pins of
    /// each.
    pub fn is_sound(&self)
        ensures { IsSound self.now }
    {
        let _ = &self.nets;
    }

    /// The module's name.
    pub fn name(&self) -> &[u8]
        ensures { result.now ≡ self.now.name }
    {
        self.name.as_bytes()
    }

    /// How many nets it has.
    pub fn net_count(&self) -> usize
        ensures { result ≡ length self.now.nets }
    {
        self.nets.len()
    }

    /// The net of this number.
    pub fn net(&self, id: u32) -> Net<'_>
        requires { id < length self.now.nets }
        ensures { slice_get self.now.nets id ≡ Some result }
    {
        self.nets.get(id)
    }

    /// Where the nets of one identifier end, of which this is one: the number behind the last of them. From this net up
    /// to there all have its name, a bit with its number, and are supplies where it is. The next is of another one.
    pub fn run_end(&self, id: u32) -> u32
        requires { id < length self.now.nets }
        ensures { IsRun self.now.nets id result }
    {
        self.nets.run_end(id)
    }

    /// The number of the net of this name. `None`: there is no such net. It takes no memory.
    pub fn find_net(&self, name: &[u8]) -> Option<u32>
        ensures { result ≡ number_of (map (λ net. net.name) self.now.nets) name.now }
    {
        self.nets.find(name)
    }

    /// How many instances it has.
    pub fn instance_count(&self) -> usize
        ensures { result ≡ length self.now.instances }
    {
        self.instances.len()
    }

    /// The instance of this number.
    pub fn instance(&self, at: usize) -> Instance<'_>
        requires { at < length self.now.instances }
        ensures { slice_get self.now.instances at ≡ Some result }
    {
        self.instances.get(at)
    }

    /// The nets that stand in assignments, on either side, as often as they stand there.
    pub fn assigned(&self) -> &Runs
        ensures { result.now ≡ self.now.assigned }
    {
        &self.assigned
    }

    /// Where the head of the module ends: just after its `;`.
    pub fn head_end(&self) -> usize
        ensures { result ≡ self.now.head_end }
    {
        self.head_end
    }

    /// Where its `endmodule` begins.
    pub fn end_at(&self) -> usize
        ensures { result ≡ self.now.end_at }
    {
        self.end_at
    }
}
