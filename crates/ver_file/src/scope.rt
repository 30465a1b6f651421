//! The nets that expressions name, and the links of pins.

ghost use Rattle.std.specs.Prelude.{◌≡◌, ℕ, List, ◌++◌, ◌∷◌, [], Some, is_some, map, slice_get, IfOk, IfSome, MatchOption, OnOk};
ghost use Rattle.ver_module.specs.Netlists.{net_name};
ghost use Rattle.ver_module.specs.Ranges.{bits_from, bits_of};
ghost use Rattle.ver_items.specs.Bits.{selected};
ghost use Rattle.ver_file.specs.Netlists.{bit_in, is_one, link_of, number_of_bit, one_named, nets_in, nets_named};
ghost use Rattle.name_tables.specs.Distinct.{number_of};
ghost use Rattle.ver_file.specs.Lookups.{IsLookedUp};
ghost use Rattle.ver_file.specs.Said.{identifiers_of};
ghost use Rattle.ver_file.specs.Scopes.{HasIdentifiers, IsScope};
ghost use Rattle.ver_items.specs.Sections.{name_at};

use crate::uses::{Use, find_use};
use std::alloc::Global;
use std::cell::Cell;
use ver_items::{Begin, Section, Sections, Select, Stretch, is_identifier, name_at, select_before};
use ver_module::{Link, Net, Nets, PortDir, Range, Runs};
use ver_syntax::Row;
use vg_num::Memory;

/// A text with its nets.
#[derive(Drop)]
pub(crate) struct Scope<'a> {
    pub text: &'a [u8],
    pub nets: &'a Nets,
    /// Where identifiers stand.
    pub uses: &'a [Use],
    /// The place of an identifier up to which they were looked up: only a guess, by which the next one is found without
    /// its name.
    pub next: Cell<usize>,
}

fn bit_in(select: Select) -> Option<u32>
    ensures { result ≡ bit_in select }
{
    match select {
        Select::Bit(bit) => Some(bit),
        _ => None,
    }
}

/// The bounds of what is selected of an identifier with this range. `None`: it is one net.
fn several(select: Select, range: Option<Range>) -> Option<Range>
    ensures { MatchOption result (selected select range ≡ bit_in select ∷ []) (λ r.
        selected select range ≡ bits_of (Some r)) }
{
    match (select, range) {
        (Select::Part(part), _) | (Select::Whole, Some(part)) => Some(part),
        _ => None,
    }
}

/// How many nets of an identifier with this range stand before one of them.
fn place_in(range: Option<Range>, bit: Option<u32>) -> Option<u32>
    ensures { IfSome result (λ at. slice_get (bits_of range) at ≡ Some bit) }
{
    match (range, bit) {
        (None, None) => Some(0),
        (Some(range), Some(bit)) => range.place(bit),
        _ => None,
    }
}

/// A net of an identifier of this name, by its name alone.
fn net_of(base: &[u8], bit: Option<u32>) -> Net<'_>
    ensures { result.name ≡ net_name base.now bit }
{
    Net {
        base,
        bit,
        escaped: false,
        port: None,
        supply: false,
    }
}

/// An identifier of nets, looked up.
#[derive(Drop)]
pub(crate) struct Found<'a> {
    name: &'a [u8],
    /// Its number. `None`: it is no identifier of the text.
    id: Option<u32>,
    pub range: Option<Range>,
    pub direction: Option<PortDir>,
}

impl<'a> Scope<'a> {
    /// The number of the identifier that a token is. `None`: it is no identifier of the text.
    fn id(&self, row: Row) -> Option<u32>
        requires { HasIdentifiers self.now }
        ensures { result ≡ number_of (identifiers_of self.now.text.now) (name_at self.now.text.now row) }
    {
        let (next, id) = find_use(self.uses, self.next.get(), row);
        self.next.set(next);
        match id {
            Some(id) => Some(id),
            None => self.nets.find_identifier(name_at(self.text, row)),
        }
    }

    /// The identifier that a token is.
    pub fn look_up(&self, row: Row) -> Found<'a>
        requires { HasIdentifiers self.now }
        ensures name { result.name.now ≡ name_at self.now.text.now row }
        ensures found { IsLookedUp self.now.text.now result }
    {
        let name = name_at(self.text, row);
        match self.id(row) {
            Some(id) => {
                let identifier = self.nets.identifier(id as usize);
                Found {
                    name,
                    id: Some(id),
                    range: identifier.range,
                    direction: identifier.port,
                }
            }
            None => Found {
                name,
                id: None,
                range: None,
                direction: None,
            },
        }
    }

    /// The number of a bit that an identifier has among the nets, or of its one net.
    fn own_number(&self, found: &Found<'_>, bit: Option<u32>) -> Option<u32>
        requires scope { IsScope self.now }
        requires found { IsLookedUp self.now.text.now found.now }
        ensures { IfSome result (λ number. number ≡ number_of_bit self.now.text.now found.now.name.now bit) }
    {
        let id = found.id? as usize;
        let at = place_in(found.range, bit)?;
        let number = self.nets.first_of(id).checked_add(at)?;
        Some(number)
    }

    /// The number of a bit of an identifier among the nets, or of its one net.
    fn number(&self, alloc: Global, found: &Found<'_>, bit: Option<u32>) -> Result<u32, Memory>
        requires scope { IsScope self.now }
        requires found { IsLookedUp self.now.text.now found.now }
        ensures { IfOk result (λ number. number ≡ number_of_bit self.now.text.now found.now.name.now bit) }
    {
        if let Some(number) = self.own_number(found, bit) {
            return Ok(number);
        }
        // No bit of its range: then another identifier may have this name.
        let mut name = Vec::with_capacity(alloc, found.name.len())?;
        net_of(found.name, bit).push_name(&mut name)?;
        Ok(self.nets.number(&name))
    }

    /// The numbers of the bits of a range, from the first to the last, if all of them are its identifier's own.
    fn own_run(&self, found: &Found<'_>, range: Range) -> Option<Range>
        requires scope { IsScope self.now }
        requires found { IsLookedUp self.now.text.now found.now }
        ensures { IfSome result (λ run.
            bits_from run ≡ map (number_of_bit self.now.text.now found.now.name.now) (bits_of (Some range))) }
    {
        let id = found.id? as usize;
        let whole = found.range?;
        let left = whole.place(range.left)?;
        let right = whole.place(range.right)?;
        let first = self.nets.first_of(id);
        Some(Range {
            left: first.checked_add(left)?,
            right: first.checked_add(right)?,
        })
    }

    /// Puts the bits of a range last.
    fn push_bits(
        &self,
        alloc: Global,
        found: &Found<'_>,
        range: Range,
        to: &mut Runs,
    ) -> Result<(), Memory>
        requires scope { IsScope self.now }
        requires found { IsLookedUp self.now.text.now found.now }
        ensures { OnOk result (to.new ≡ to.old
            ++ map (number_of_bit self.now.text.now found.now.name.now) (bits_of (Some range))) }
    {
        if let Some(run) = self.own_run(found, range) {
            to.push_run(run)?;
            return Ok(());
        }
        'turn: for at in 0..range.count() {
            let number = self.number(alloc, found, Some(range.bit(at)))?;
            to.push(number)?;
        }
        Ok(())
    }

    /// Puts the nets last that an identifier stands for, by what is selected of it. Answers `Memory` where there is no
    /// room.
    pub fn push_named<T: Stretch>(
        &self,
        alloc: Global,
        section: &Section<T>,
        to: &mut Runs,
    ) -> Result<(), Memory>
        requires { IsScope self.now }
        ensures { OnOk result (to.new ≡ to.old ++ nets_named self.now.text.now section.now) }
    {
        let found = self.look_up(section.head);
        let select = select_before(self.text, &section.body);
        match several(select, found.range) {
            None => {
                let number = self.number(alloc, &found, bit_in(select))?;
                to.push(number)?;
                Ok(())
            }
            Some(range) => {
                self.push_bits(alloc, &found, range, to)?;
                Ok(())
            }
        }
    }

    /// The nets in an expression.
    fn nets_in<T: Stretch>(&self, alloc: Global, expression: &T) -> Result<Runs, Memory>
        requires { IsScope self.now }
        ensures { IfOk result (λ nets. nets ≡ nets_in self.now.text.now (T.tokens expression.now)) }
    {
        let mut nets = Runs::new(alloc);
        'name: for name in Sections::new(Begin::Identifier, expression) {
            self.push_named(alloc, &name, &mut nets)?;
        }
        Ok(nets)
    }

    /// The net that this is, where it is an identifier and with what follows it one net. `None`: it is not.
    fn one<T: Stretch>(&self, alloc: Global, named: &Section<T>) -> Result<Option<u32>, Memory>
        requires { IsScope self.now }
        ensures one { IfOk result (λ found. is_some found ≡ is_one self.now.text.now named.now) }
        ensures number { IfOk result (λ found.
            IfSome found (λ number. number ≡ one_named self.now.text.now named.now)) }
    {
        if !is_identifier(named.head) {
            return Ok(None);
        }
        let found = self.look_up(named.head);
        let select = select_before(self.text, &named.body);
        if !select.is_single(found.range) {
            return Ok(None);
        }
        let number = self.number(alloc, &found, bit_in(select))?;
        Ok(Some(number))
    }

    /// What a pin with this expression is linked to. Answers `Memory` where there is no room.
    pub fn link<T: Stretch>(&self, alloc: Global, expression: &T) -> Result<Link, Memory>
        requires { IsScope self.now }
        ensures { IfOk result (λ link. link ≡ link_of self.now.text.now (T.tokens expression.now)) }
    {
        let mut rest = expression.again();
        let Some(first) = rest.next() else {
            return Ok(Link::Open);
        };
        let named = Section::before(Begin::Identifier, first, &rest);
        if let Some(number) = self.one(alloc, &named)? {
            return Ok(Link::One(number));
        }
        let nets = self.nets_in(alloc, expression)?;
        Ok(Link::Many(nets))
    }
}
