//! The nets of a module.

ghost use Rattle.std.specs.Prelude.{◌≡◌, ℕ, ◌<◌, ◌≤◌, ◌+◌, ◌^◌, [], Some, length, map, slice_get, slice_index, slice_index_or, take, IfOk, IfSome};
ghost use Rattle.ver_module.specs.Ranges.{bits_of};
ghost use Rattle.std.specs.List.{All};
ghost use Rattle.name_tables.specs.Distinct.{number_in, number_of};
ghost use Rattle.ver_module.specs.Names.{AreApart, IsOnly, is_bit, is_scalar};
ghost use Rattle.ver_module.specs.Flat.{AreNets, IsBounded, count_in, earlier, firsts_of};
ghost use Rattle.ver_module.specs.Netlists.{nets_in, nets_with};
ghost use Rattle.ver_module.specs.Runs.{IsRun};

use crate::net::{Identifier, Net, bit_of};
use name_tables::Names;
use std::alloc::Global;
use std::marker::Model;
use vg_num::Memory;

/// The nets of a module, by their identifiers: all bits of a vector take the room of one net. Contracts see the names
/// of the identifiers, and what holds of the nets of each.
#[derive(Drop)]
pub struct Nets {
    /// The names of the identifiers.
    names: Names,
    identifiers: Vec<Identifier>,
    /// The number of the first net of each identifier.
    firsts: Vec<u32>,
    count: u32,
}

impl Model for Nets {
    ghost use Rattle.ver_module.specs.Netlists.{NetTable};
    ghost use Rattle.ver_module.specs.Flat.{AreNets};

    ghost Value = { NetTable };

    ghost view = { λ nets. record { names = nets.names; identifiers = nets.identifiers.items } };

    ghost invariant = { λ nets. AreNets nets.names nets.identifiers.items nets.firsts.items nets.count };
}

/// The earlier of two nets, where they are there.
fn earlier(one: Option<u32>, other: Option<u32>) -> Option<u32>
    ensures { result ≡ earlier one other }
{
    match (one, other) {
        (Some(one), Some(other)) => Some(one.min(other)),
        (found, None) | (None, found) => found,
    }
}

/// The number behind those of an identifier's nets, the first of which has this one, if it is below 2^32.
fn next_number(first: u32, identifier: Identifier) -> Option<u32>
    ensures { IfSome result (λ next. next ≡ first + length (bits_of identifier.range)) }
{
    let count = u32::try_from(identifier.count()).ok()?;
    first.checked_add(count)
}

/// A law: the bounds of a vector are below 2^32.
fn is_bounded(identifier: Identifier)
    ensures { IsBounded identifier }
{
    let _ = identifier;
}

/// The number of the first net of each identifier, and how many nets there are. Answers `Memory` where there is no
/// room, as where there are 2^32 nets or more.
fn numbered(alloc: Global, identifiers: &[Identifier]) -> Result<(Vec<u32>, u32), Memory>
    ensures firsts { IfOk result (λ found. found.0.items ≡ firsts_of 0 identifiers.now) }
    ensures count { IfOk result (λ found. found.1 ≡ count_in identifiers.now) }
    ensures bounded { IfOk result (λ _. All IsBounded identifiers.now) }
{
    let mut firsts = Vec::with_capacity(alloc, identifiers.len())?;
    let mut count = 0u32;
    'identifier: for identifier in identifiers {
        is_bounded(*identifier);
        firsts.push(count)?;
        let Some(next) = next_number(count, *identifier) else {
            return Err(Memory);
        };
        count = next;
    }
    Ok((firsts, count))
}

/// Which of these numbers, the first of which is not over another one and which rise, is the last that is not over it.
fn last_up_to(firsts: &[u32], id: u32) -> usize
    requires some { 0 < length firsts.now }
    requires first { slice_index firsts.now 0 ≤ id }
    ensures within { result < length firsts.now }
    ensures from { slice_index firsts.now result ≤ id }
    ensures next { result + 1 < length firsts.now → id < slice_index firsts.now (result + 1) }
{
    let mut low = 0;
    let mut high = firsts.len();
    'halve: while low + 1 < high {
        let middle = low + (high - low) / 2;
        if firsts[middle] <= id {
            low = middle;
        } else {
            high = middle;
        }
    }
    low
}

/// The number of the scalar of this name among the nets of identifiers, whose first nets have these numbers.
fn find_scalar(
    names: &Names,
    identifiers: &[Identifier],
    firsts: &[u32],
    name: &[u8],
) -> Option<u32>
    requires { (count : ℕ) × AreNets names.now identifiers.now firsts.now count }
    ensures { IsOnly is_scalar (nets_with names.now identifiers.now) name.now result }
{
    let id = names.find(name)? as usize;
    match identifiers[id].range {
        None => Some(firsts[id]),
        Some(_) => None,
    }
}

/// The same of the bit of this name.
fn find_bit(names: &Names, identifiers: &[Identifier], firsts: &[u32], name: &[u8]) -> Option<u32>
    requires { (count : ℕ) × AreNets names.now identifiers.now firsts.now count }
    ensures { IsOnly is_bit (nets_with names.now identifiers.now) name.now result }
{
    let (base, bit) = bit_of(name)?;
    let id = names.find(base)? as usize;
    let range = identifiers[id].range?;
    let place = range.place(bit)?;
    Some(firsts[id] + place)
}

impl Nets {
    /// The nets of these identifiers, whose names these are. Answers `Memory` where there is no room, as where there
    /// are 2^32 nets or more.
    pub fn new(alloc: Global, names: Names, identifiers: Vec<Identifier>) -> Result<Nets, Memory>
        requires { length identifiers.items ≡ length names }
        ensures { IfOk result (λ nets. nets ≡ record { names = names; identifiers = identifiers.items }) }
    {
        let (firsts, count) = numbered(alloc, &identifiers)?;
        names.are_distinct();
        Ok(Nets {
            names,
            identifiers,
            firsts,
            count,
        })
    }

    /// How many nets there are: fewer than 2^32.
    pub fn len(&self) -> usize
        ensures count { result ≡ length (nets_in self.now) }
        ensures few { result < 2 ^ 32 }
    {
        self.count as usize
    }

    /// A law: there are fewer than 2^32 nets.
    pub(crate) fn are_few(&self)
        ensures { length (nets_in self.now) < 2 ^ 32 }
    {
        let _ = &self.count;
    }

    /// The net of this number.
    pub fn get(&self, id: u32) -> Net<'_>
        requires { id < length (nets_in self.now) }
        ensures { slice_get (nets_in self.now) id ≡ Some result }
    {
        let at = last_up_to(&self.firsts, id);
        let place = id - self.firsts[at];
        self.identifiers[at].net(self.names.name(at as u32), place as usize)
    }

    /// How many identifiers there are.
    pub fn identifier_count(&self) -> usize
        ensures names { result ≡ length self.now.names }
        ensures identifiers { result ≡ length self.now.identifiers }
    {
        self.identifiers.len()
    }

    /// The number of the identifier of this name. `None`: there is none. It takes no memory.
    pub fn find_identifier(&self, name: &[u8]) -> Option<u32>
        ensures { result ≡ number_of self.now.names name.now }
    {
        self.names.find(name)
    }

    /// The name of the identifier of this number.
    pub fn identifier_name(&self, at: usize) -> &[u8]
        requires { at < length self.now.names }
        ensures { result.now ≡ slice_index_or self.now.names at [] }
    {
        self.names.name(at as u32)
    }

    /// What holds of all nets of the identifier of this number.
    pub fn identifier(&self, at: usize) -> Identifier
        requires { at < length self.now.identifiers }
        ensures { slice_get self.now.identifiers at ≡ Some result }
    {
        self.identifiers[at]
    }

    /// The number of the first net of the identifier of this number.
    pub fn first_of(&self, at: usize) -> u32
        requires { at < length self.now.identifiers }
        ensures { result ≡ count_in (take at self.now.identifiers) }
    {
        self.firsts[at]
    }

    /// Where the nets of one identifier end, of which this is one: the number behind the last of them.
    pub fn run_end(&self, id: u32) -> u32
        requires { id < length (nets_in self.now) }
        ensures { IsRun (nets_in self.now) id result }
    {
        let next = last_up_to(&self.firsts, id) + 1;
        match self.firsts.get(next) {
            Some(first) => *first,
            None => self.count,
        }
    }

    /// A law: no two scalars have one name, and no two bits.
    pub fn are_apart(&self)
        ensures { AreApart (nets_in self.now) }
    {
        let _ = &self.names;
    }

    /// The number of the bit of this name, which a scalar may have too. `None`: there is no such bit. It takes no
    /// memory.
    pub fn bit_named(&self, name: &[u8]) -> Option<u32>
        ensures { IsOnly is_bit (nets_in self.now) name.now result }
    {
        find_bit(&self.names, &self.identifiers, &self.firsts, name)
    }

    /// The number of the first net of this name. `None`: there is no such net. It takes no memory.
    pub fn find(&self, name: &[u8]) -> Option<u32>
        ensures { result ≡ number_of (map (λ net. net.name) (nets_in self.now)) name.now }
    {
        let scalar = find_scalar(&self.names, &self.identifiers, &self.firsts, name);
        earlier(scalar, self.bit_named(name))
    }

    /// The number of the first net of this name, or how many nets there are.
    pub fn number(&self, name: &[u8]) -> u32
        ensures { result ≡ number_in (map (λ net. net.name) (nets_in self.now)) name.now }
    {
        match self.find(name) {
            Some(id) => id,
            None => self.count,
        }
    }
}
