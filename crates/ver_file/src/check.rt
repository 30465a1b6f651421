//! What is wrong with a text that has the grammar of a module.

ghost use Rattle.std.specs.Prelude.{◌≡◌, ◌<◌, ◌∷◌, [], flat_map, length, map, not, IfOk};
ghost use Rattle.std.specs.List.{list_any};
ghost use Rattle.std.specs.Str.{bytes_eq};
ghost use Rattle.name_tables.specs.Distinct.{with_name};
ghost use Rattle.ver_items.specs.Begins.{begins};
ghost use Rattle.ver_items.specs.Bits.{fits, select_before};
ghost use Rattle.ver_file.specs.Netlists.{identifiers_in, range_at};
ghost use Rattle.ver_items.specs.Declarations.{declared_in};
ghost use Rattle.ver_file.specs.Firsts.{connection_flaws_in, declared_among, declared_at, first_of, named_at, named_twice, other_directions, other_ranges};
ghost use Rattle.ver_file.specs.Firsts.{port_flaws_among, range_flaws_in, twice_in, with_instances, with_named};
ghost use Rattle.ver_file.specs.Flaws.{agrees, connection_flaws, is_range, repeated, select_flaws, syntax_flaws};
ghost use Rattle.ver_items.specs.Others.{HasOthers};
ghost use Rattle.ver_items.specs.Sections.{instances_in, name_at, sections};
ghost use Rattle.ver_items.specs.SectionSteps.{section_in};
ghost use Rattle.ver_file.specs.Scopes.{HasIdentifiers};

use crate::first::{Firsts, unless};
use crate::identifier::room_for_names;
use crate::scope::Scope;
use name_tables::Names;
use std::alloc::Global;
use ver_items::{
    Begin, Heading, Section, Sections, Select, Stretch, after_first, connection_of, expression_in,
    is_name_in, is_net_name, name_at, select_before,
};
use ver_module::{PortDir, Range, name_number};
use ver_syntax::{Place, Row};
use vg_num::Memory;

/// The most tokens of an instance whose pins are compared with one another: some thirty pins.
const FEW: usize = 160;

fn is_range(range: Option<Range>, other: Option<Range>) -> bool
    ensures { result ≡ is_range range other }
{
    range == other
}

/// Whether a direction, if there is one, is the first that was given.
fn agrees(first: Option<PortDir>, direction: Option<PortDir>) -> bool
    ensures { result ≡ agrees first direction }
{
    direction.is_none() || direction == first
}

/// The first flaws, where a token of a declaration may be an identifier that was declared with another range or
/// direction, or those before it.
#[inline(always)]
fn check_declared(scope: &Scope<'_>, heading: Heading, row: Row, firsts: Firsts) -> Firsts
    requires { HasIdentifiers scope.now }
    ensures clash { result.clash
        ≡ first_of firsts.clash (other_ranges scope.now.text.now (declared_at scope.now.text.now heading (row ∷ []))) }
    ensures twice { result.twice ≡ firsts.twice }
    ensures grammar { result.grammar
        ≡ first_of firsts.grammar
        (other_directions scope.now.text.now (declared_at scope.now.text.now heading (row ∷ []))) }
{
    if !is_net_name(row) {
        return firsts;
    }
    let found = scope.look_up(row);
    let is_range = is_range(found.range, heading.range);
    let agrees = agrees(found.direction, heading.direction);
    Firsts {
        clash: unless(is_range, row.from as usize, firsts.clash),
        twice: firsts.twice,
        grammar: unless(agrees, row.from as usize, firsts.grammar),
    }
}

/// The first flaws of a declaration's identifiers, or those before them.
fn check_declaration<T: Stretch>(
    scope: &Scope<'_>,
    declaration: &Section<T>,
    firsts: Firsts,
) -> Firsts
    requires { HasIdentifiers scope.now }
    ensures clash { result.clash
        ≡ first_of firsts.clash (other_ranges scope.now.text.now (declared_in scope.now.text.now declaration.now)) }
    ensures twice { result.twice ≡ firsts.twice }
    ensures grammar { result.grammar
        ≡ first_of firsts.grammar
        (other_directions scope.now.text.now (declared_in scope.now.text.now declaration.now)) }
{
    let heading = Heading::of(scope.text, declaration);
    let mut firsts = firsts;
    let mut left = declaration.body.again();
    'row: while let Some(row) = left.next() {
        firsts = check_declared(scope, heading, row, firsts);
    }
    firsts
}

/// The text's end, where a token is a port in a list that has no direction, or the place before it.
#[inline(always)]
fn port_flaw(scope: &Scope<'_>, row: Row, first: Option<usize>) -> Option<usize>
    requires { HasIdentifiers scope.now }
    ensures { result ≡ first_of first (port_flaws_among scope.now.text.now (row ∷ [])) }
{
    if !is_name_in(Place::Ports, row) {
        return first;
    }
    let found = scope.look_up(row);
    unless(found.direction.is_some(), scope.text.len(), first)
}

/// The text's end, where a port in a list has no direction, or the place before it.
fn port_flaws<T: Stretch>(scope: &Scope<'_>, rows: &T, first: Option<usize>) -> Option<usize>
    requires { HasIdentifiers scope.now }
    ensures { result ≡ first_of first (port_flaws_among scope.now.text.now (T.tokens rows.now)) }
{
    let mut first = first;
    let mut left = rows.again();
    'row: while let Some(row) = left.next() {
        first = port_flaw(scope, row, first);
    }
    first
}

/// Whether what is selected of an identifier lies in its range. Only a bit or a part may not.
fn fits<T: Stretch>(scope: &Scope<'_>, name: &Section<T>) -> bool
    requires { HasIdentifiers scope.now }
    ensures { result
        ≡ fits (select_before scope.now.text.now name.now.body) (range_at scope.now.text.now name.now.head) }
{
    match select_before(scope.text, &name.body) {
        Select::Whole => true,
        select => select.fits(scope.look_up(name.head).range),
    }
}

/// The first identifier among some tokens of which a bit or a part is selected that it has not, or the one before it.
fn select_flaws<T: Stretch>(
    scope: &Scope<'_>,
    begin: Begin,
    rows: &T,
    first: Option<usize>,
) -> Option<usize>
    requires { HasIdentifiers scope.now }
    ensures { result ≡ first_of first
        (flat_map (select_flaws scope.now.text.now) (sections (begins begin) (T.tokens rows.now))) }
{
    let mut first = first;
    'name: for name in Sections::new(begin, rows) {
        first = unless(fits(scope, &name), name.head.from as usize, first);
    }
    first
}

/// The place of a name that is one of these, or the one before it; the name is put last where it is new.
fn repeated(
    text: &[u8],
    token: Row,
    names: &mut Names,
    first: Option<usize>,
) -> Result<Option<usize>, Memory>
    ensures names { IfOk result (λ _. names.new ≡ with_name names.old (name_at text.now token)) }
    ensures first { IfOk result (λ found. found ≡ first_of first (repeated names.old (named_at text.now token ∷ []))) }
{
    let count = names.len();
    let id = name_number(names, name_at(text, token))?;
    Ok(unless(id as usize == count, token.from as usize, first))
}

/// Whether a token gives none of the names of these.
fn is_other(text: &[u8], token: Row, others: &[Row]) -> bool
    ensures { result ≡ not (list_any (bytes_eq (name_at text.now token)) (map (name_at text.now) others.now)) }
{
    let name = name_at(text, token);
    'other: for other in others {
        if name == name_at(text, *other) {
            return false;
        }
    }
    true
}

/// The place of a pin, where its name is that of one of these, or the one before it; the pin is put last where its name
/// is new.
#[inline(always)]
fn repeated_among(
    text: &[u8],
    pin: Row,
    pins: &mut Vec<Row>,
    first: Option<usize>,
) -> Result<Option<usize>, Memory>
    ensures names { IfOk result (λ _. map (name_at text.now) pins.new.items
        ≡ with_name (map (name_at text.now) pins.old.items) (name_at text.now pin)) }
    ensures first { IfOk result (λ found. found
        ≡ first_of first (repeated (map (name_at text.now) pins.old.items) (named_at text.now pin ∷ []))) }
{
    if !is_other(text, pin, pins) {
        return Ok(unless(false, pin.from as usize, first));
    }
    pins.push(pin)?;
    Ok(first)
}

/// The first identifier in the connection of a pin of which a bit or a part is selected that it has not, or the one
/// before it.
fn link_flaws<T: Stretch>(
    scope: &Scope<'_>,
    pin: &Section<T>,
    first: Option<usize>,
) -> Option<usize>
    requires { HasIdentifiers scope.now }
    ensures { result ≡ first_of first (flat_map (select_flaws scope.now.text.now) (identifiers_in pin.now)) }
{
    let expression = expression_in(&connection_of(pin));
    if expression.len() < 2 {
        // A name alone selects all of an identifier.
        return first;
    }
    select_flaws(scope, Begin::Identifier, &expression, first)
}

/// The first flaw in the connections of an instance, or the one before it, by a walk over the pins before each. The
/// list of tokens is room to work in.
fn few_pin_flaws<T: Stretch>(
    scope: &Scope<'_>,
    instance: &Section<T>,
    pins: &mut Vec<Row>,
    first: Option<usize>,
) -> Result<Option<usize>, Memory>
    requires { HasIdentifiers scope.now }
    ensures { IfOk result (λ found. found ≡ first_of first (connection_flaws scope.now.text.now instance.now)) }
{
    pins.clear();
    let mut first = first;
    'pin: for pin in Sections::new(Begin::Pin, &instance.body) {
        first = repeated_among(scope.text, pin.head, pins, first)?;
        first = link_flaws(scope, &pin, first);
    }
    Ok(first)
}

/// The same, by a table of their names.
fn many_pin_flaws<T: Stretch>(
    alloc: Global,
    scope: &Scope<'_>,
    instance: &Section<T>,
    first: Option<usize>,
) -> Result<Option<usize>, Memory>
    requires { HasIdentifiers scope.now }
    ensures { IfOk result (λ found. found ≡ first_of first (connection_flaws scope.now.text.now instance.now)) }
{
    let mut names = Names::new(alloc);
    let mut first = first;
    'pin: for pin in Sections::new(Begin::Pin, &instance.body) {
        first = repeated(scope.text, pin.head, &mut names, first)?;
        first = link_flaws(scope, &pin, first);
    }
    Ok(first)
}

/// The first flaw in the connections of an instance, or the one before it. The list of tokens is room to work in.
fn connection_flaws<T: Stretch>(
    alloc: Global,
    scope: &Scope<'_>,
    instance: &Section<T>,
    pins: &mut Vec<Row>,
    first: Option<usize>,
) -> Result<Option<usize>, Memory>
    requires { HasIdentifiers scope.now }
    ensures { IfOk result (λ found. found ≡ first_of first (connection_flaws scope.now.text.now instance.now)) }
{
    if instance.body.len() <= FEW {
        few_pin_flaws(scope, instance, pins, first)
    } else {
        many_pin_flaws(alloc, scope, instance, first)
    }
}

/// The first flaws of an item's declarations, or those before them.
fn check_declarations<T: Stretch>(scope: &Scope<'_>, item: &T, firsts: Firsts) -> Firsts
    requires { HasIdentifiers scope.now }
    ensures clash { result.clash
        ≡ first_of firsts.clash
        (other_ranges scope.now.text.now (declared_among scope.now.text.now (T.tokens item.now))) }
    ensures twice { result.twice ≡ firsts.twice }
    ensures grammar { result.grammar
        ≡ first_of firsts.grammar
        (other_directions scope.now.text.now (declared_among scope.now.text.now (T.tokens item.now))) }
{
    let mut firsts = firsts;
    'declaration: for declaration in Sections::new(Begin::Declaration, item) {
        firsts = check_declaration(scope, &declaration, firsts);
    }
    firsts
}

/// What is kept of the items before one: the names of their instances, and room for the pins of one instance.
#[derive(Drop)]
pub(crate) struct Seen {
    instances: Names,
    pins: Vec<Row>,
}

impl Seen {
    /// Nothing, with room for about as many names as a text of this length has. Answers `Memory` where there is none.
    pub fn new(alloc: Global, text_len: usize) -> Result<Seen, Memory>
        ensures { IfOk result (λ seen. seen.instances ≡ []) }
    {
        let instances = Names::with_room(alloc, room_for_names(text_len))?;
        Ok(Seen {
            instances,
            pins: Vec::new(alloc),
        })
    }
}

/// The first flaws of an item's instances, or those before them. The names of the instances are put last.
fn check_instances<T: Stretch>(
    alloc: Global,
    scope: &Scope<'_>,
    item: &Section<T>,
    seen: &mut Seen,
    firsts: Firsts,
) -> Result<Firsts, Memory>
    requires { HasIdentifiers scope.now }
    ensures names { IfOk result (λ _. seen.new.instances
        ≡ with_named scope.now.text.now seen.old.instances (instances_in item.now)) }
    ensures clash { IfOk result (λ found. found.clash ≡ firsts.clash) }
    ensures twice { IfOk result (λ found. found.twice
        ≡ first_of firsts.twice (named_twice scope.now.text.now seen.old.instances (instances_in item.now))) }
    ensures grammar { IfOk result (λ found. found.grammar
        ≡ first_of firsts.grammar (connection_flaws_in scope.now.text.now item.now)) }
{
    let mut twice = firsts.twice;
    let mut grammar = firsts.grammar;
    'instance: for instance in Sections::new(Begin::Instance, &item.body) {
        twice = repeated(scope.text, instance.head, &mut seen.instances, twice)?;
        grammar = connection_flaws(alloc, scope, &instance, &mut seen.pins, grammar)?;
    }
    Ok(Firsts {
        clash: firsts.clash,
        twice,
        grammar,
    })
}

/// The first flaws of an item with these others, or those before them.
pub(crate) fn check_item<T: Stretch>(
    alloc: Global,
    scope: &Scope<'_>,
    rows: &T,
    others: &T,
    seen: &mut Seen,
    firsts: Firsts,
) -> Result<Firsts, Memory>
    requires some { 0 < length (T.tokens rows.now) }
    requires others { HasOthers (T.tokens rows.now) (T.tokens others.now) }
    requires table { HasIdentifiers scope.now }
    ensures names { IfOk result (λ _. seen.new.instances
        ≡ with_instances scope.now.text.now seen.old.instances (section_in (T.tokens rows.now))) }
    ensures clash { IfOk result (λ found. found.clash
        ≡ first_of firsts.clash (range_flaws_in scope.now.text.now (section_in (T.tokens rows.now)))) }
    ensures twice { IfOk result (λ found. found.twice
        ≡ first_of firsts.twice (twice_in scope.now.text.now seen.old.instances (section_in (T.tokens rows.now)))) }
    ensures grammar { IfOk result (λ found. found.grammar
        ≡ first_of firsts.grammar (flat_map (syntax_flaws scope.now.text.now) (section_in (T.tokens rows.now)))) }
{
    let after = after_first(others);
    let mut firsts = check_declarations(scope, others, firsts);
    firsts.grammar = port_flaws(scope, &after, firsts.grammar);
    firsts.grammar = select_flaws(scope, Begin::Assigned, &after, firsts.grammar);
    let item = Section::of(rows);
    let firsts = check_instances(alloc, scope, &item, seen, firsts)?;
    Ok(firsts)
}
