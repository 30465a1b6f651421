//! The nets of a text, and whether two of them have one name.

ghost use Rattle.std.specs.Prelude.{◌≡◌, ◌<◌, None, length, IfOk};
ghost use Rattle.std.specs.List.{All};
ghost use Rattle.ver_file.specs.Clashes.{FindsClash, place_in};
ghost use Rattle.ver_file.specs.Firsts.{first_of};
ghost use Rattle.ver_file.specs.Flaws.{name_flaws};
ghost use Rattle.ver_file.specs.Said.{identifiers_of};
ghost use Rattle.ver_file.specs.Tables.{AreIdentifiers, IsNetTable, IsUse, froms_of};

use crate::first::unless;
use crate::identifier::Identifiers;
use crate::scope::Scope;
use crate::uses::Use;
use std::alloc::Global;
use ver_module::Nets;
use vg_num::Memory;

/// The nets of a text, where their identifiers come first, and where they stand.
#[derive(Drop)]
pub(crate) struct Table {
    pub nets: Nets,
    /// Where the first token of each identifier begins.
    pub froms: Vec<u32>,
    pub uses: Vec<Use>,
}

/// The nets of a text with these identifiers.
pub(crate) fn nets_of(alloc: Global, text: &[u8], identifiers: Identifiers) -> Result<Table, Memory>
    requires { AreIdentifiers text.now identifiers }
    ensures nets { IfOk result (λ table. IsNetTable text.now table.nets) }
    ensures froms { IfOk result (λ table. table.froms.items ≡ froms_of text.now) }
    ensures uses { IfOk result (λ table. All (IsUse text.now (identifiers_of text.now)) table.uses.items) }
{
    let Identifiers {
        names,
        mut all,
        declared: _,
        froms,
        uses,
    } = identifiers;
    // The module keeps this list, which may have grown to twice the room that it needs.
    all.shrink_to_fit();
    let nets = Nets::new(alloc, names, all)?;
    Ok(Table { nets, froms, uses })
}

/// The place of the later one of a scalar and a bit that have this scalar's name, by the number of its identifier and
/// by where identifiers come first. `None`: no bit has its name, or the identifier is a vector.
fn clash_at(scope: &Scope<'_>, froms: &[u32], at: usize) -> Option<usize>
    requires table { IsNetTable scope.now.text.now scope.now.nets.now }
    requires froms { froms.now ≡ froms_of scope.now.text.now }
    requires within { at < length froms.now }
    ensures { FindsClash scope.now.text.now at result }
{
    let nets = scope.nets;
    nets.are_apart();
    if nets.identifier(at).range.is_some() {
        return None;
    }
    let name = nets.identifier_name(at);
    let bit = nets.bit_named(name)?;
    if nets.number(name) == bit {
        return Some(froms[at] as usize);
    }
    let vector = nets.find_identifier(nets.get(bit).base)?;
    Some(froms[vector as usize] as usize)
}

/// The earlier of two places, where they are there.
fn earlier_of(first: Option<usize>, place: Option<usize>) -> Option<usize>
    ensures { result ≡ first_of first (place_in place) }
{
    match place {
        None => first,
        Some(place) => unless(false, place, first),
    }
}

/// The first place at which a net has the name of an earlier one, by where identifiers come first: that of the later of
/// a scalar and a bit.
pub(crate) fn first_clash(scope: &Scope<'_>, froms: &[u32]) -> Option<usize>
    requires table { IsNetTable scope.now.text.now scope.now.nets.now }
    requires froms { froms.now ≡ froms_of scope.now.text.now }
    ensures { result ≡ first_of None (name_flaws scope.now.text.now) }
{
    scope.nets.are_apart();
    let mut first = None;
    'identifier: for at in 0..froms.len() {
        first = earlier_of(first, clash_at(scope, froms, at));
    }
    first
}
