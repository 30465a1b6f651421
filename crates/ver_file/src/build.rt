//! The instances and the assignments of a module without a flaw.

ghost use Rattle.std.specs.Prelude.{◌≡◌, ◌<◌, ◌^◌, ◌++◌, ◌∷◌, [], List, flat_map, fold, length, map, find, IfOk, IfSome, OnOk};
ghost use Rattle.ver_module.specs.Netlists.{with_pin};
ghost use Rattle.ver_syntax.specs.declared.row.Place.TheVariants.{Assignment, Head};
ghost use Rattle.ver_syntax.specs.Grammar.{is};
ghost use Rattle.ver_syntax.specs.Rows.{rows_of};
ghost use Rattle.ver_items.specs.Sections.{Section as SectionSpec, is_name_in, items, pins_in, sections};
ghost use Rattle.ver_items.specs.SectionSteps.{section_in};
ghost use Rattle.ver_file.specs.Netlists.{head_end, instance_of, instances_by, module_name, nets_named, pin_of};
ghost use Rattle.ver_file.specs.Bodies.{HasScope, IsBody, IsBodyWith, end_in};
ghost use Rattle.ver_file.specs.Scopes.{HasClash, IsScope};

use crate::check::{Seen, check_item};
use crate::first::Firsts;
use crate::scope::Scope;
use std::alloc::Global;
use ver_items::{
    Begin, Item, ItemsAgain, KeptItems, Section, Sections, Stretch, Tokens, after_first,
    connection_of, expression_in, is, is_name_in, name_at, others_in, span_of,
};
use ver_module::{Instances, Runs};
use ver_syntax::{Place, Row, Rows};
use ver_text::Kind;
use vg_num::Memory;
use vg_scan::Name;

/// Puts a pin last in the last instance.
fn push_pin<T: Stretch>(
    alloc: Global,
    scope: &Scope<'_>,
    pin: &Section<T>,
    to: &mut Instances,
) -> Result<(), Memory>
    requires { IsScope scope.now }
    ensures { OnOk result (to.new ≡ with_pin to.old (pin_of scope.now.text.now pin.now)) }
{
    let connection = connection_of(pin);
    let link = scope.link(alloc, &expression_in(&connection))?;
    to.push_pin(name_at(scope.text, pin.head), span_of(&connection), link)?;
    Ok(())
}

/// Puts pins last in the last instance.
fn push_pins<T: Stretch>(
    alloc: Global,
    scope: &Scope<'_>,
    instance: &Section<T>,
    to: &mut Instances,
) -> Result<(), Memory>
    requires { IsScope scope.now }
    ensures { OnOk result (to.new ≡ fold with_pin to.old (map (pin_of scope.now.text.now) (pins_in instance.now))) }
{
    'pin: for pin in Sections::new(Begin::Pin, &instance.body) {
        push_pin(alloc, scope, &pin, to)?;
    }
    Ok(())
}

/// Puts an instance of this cell last.
fn push_instance<T: Stretch>(
    alloc: Global,
    scope: &Scope<'_>,
    cell: Row,
    instance: &Section<T>,
    to: &mut Instances,
) -> Result<(), Memory>
    requires { IsScope scope.now }
    ensures { OnOk result (to.new ≡ to.old ++ instance_of scope.now.text.now cell instance.now ∷ []) }
{
    to.push(
        name_at(scope.text, instance.head),
        name_at(scope.text, cell),
    )?;
    push_pins(alloc, scope, instance, to)?;
    Ok(())
}

/// Puts the instances of an item last.
fn push_instances<T: Stretch>(
    alloc: Global,
    scope: &Scope<'_>,
    item: &Section<T>,
    to: &mut Instances,
) -> Result<(), Memory>
    requires { IsScope scope.now }
    ensures { OnOk result (to.new ≡ to.old ++ instances_by scope.now.text.now item.now) }
{
    'instance: for instance in Sections::new(Begin::Instance, &item.body) {
        push_instance(alloc, scope, item.head, &instance, to)?;
    }
    Ok(())
}

/// Puts the nets in assignments among some tokens last.
fn push_assigned<T: Stretch>(
    alloc: Global,
    scope: &Scope<'_>,
    rows: &T,
    to: &mut Runs,
) -> Result<(), Memory>
    requires { IsScope scope.now }
    ensures { OnOk result (to.new ≡ to.old
        ++ flat_map (nets_named scope.now.text.now) (sections (is_name_in Assignment) (T.tokens rows.now))) }
{
    'name: for name in Sections::new(Begin::Assigned, rows) {
        scope.push_named(alloc, &name, to)?;
    }
    Ok(())
}

/// Where the first `endmodule` among some tokens begins.
fn end_in<T: Stretch>(rows: &T) -> Option<usize>
    ensures { result ≡ end_in (T.tokens rows.now) }
{
    let mut left = rows.again();
    'row: while let Some(row) = left.next() {
        if is(Kind::EndModule, row.kind) {
            return Some(row.from as usize);
        }
    }
    None
}

/// What the items of a text hold, and what is wrong with it.
#[derive(Drop)]
pub(crate) struct Body {
    pub firsts: Firsts,
    pub instances: Instances,
    /// The nets in assignments.
    pub assigned: Runs,
    /// Where `endmodule` begins.
    pub end: Option<usize>,
}

/// Takes the tokens of the next item. Nothing more is built once something is wrong.
fn read_tokens<T: Stretch>(
    alloc: Global,
    scope: &Scope<'_>,
    rows: &T,
    seen: &mut Seen,
    body: &mut Body,
) -> Result<(), Memory>
    requires some { 0 < length (T.tokens rows.now) }
    requires scope { HasScope scope.now body.old }
    ensures scope { OnOk result (HasScope scope.now body.new) }
    ensures read { (left : List SectionSpec)
        → IsBodyWith scope.now.text.now (section_in (T.tokens rows.now) ++ left) seen.old.instances body.old
        → OnOk result (IsBodyWith scope.now.text.now left seen.new.instances body.new) }
{
    let others = others_in(rows);
    let firsts = check_item(alloc, scope, rows, &others, seen, body.firsts)?;
    body.firsts = firsts;
    body.end = body.end.or(end_in(&others));
    if !firsts.are_none() {
        return Ok(());
    }
    let item = Section::of(rows);
    let after = after_first(&others);
    push_instances(alloc, scope, &item, &mut body.instances)?;
    push_assigned(alloc, scope, &after, &mut body.assigned)?;
    Ok(())
}

/// Takes the next item.
fn read_item(
    alloc: Global,
    scope: &Scope<'_>,
    item: &Item<'_>,
    seen: &mut Seen,
    body: &mut Body,
) -> Result<(), Memory>
    requires some { 0 < length item.now }
    requires scope { HasScope scope.now body.old }
    ensures scope { OnOk result (HasScope scope.now body.new) }
    ensures read { (left : List SectionSpec)
        → IsBodyWith scope.now.text.now (section_in item.now ++ left) seen.old.instances body.old
        → OnOk result (IsBodyWith scope.now.text.now left seen.new.instances body.new) }
{
    match item.tokens() {
        Tokens::Held(rows) => read_tokens(alloc, scope, &rows, seen, body),
        Tokens::Cut(rows) => read_tokens(alloc, scope, &rows, seen, body),
    }
}

/// What the items of a text hold, and what is wrong with it, where this is the first place at which two nets have one
/// name and its items may be kept.
pub(crate) fn read_body(
    alloc: Global,
    scope: &Scope<'_>,
    kept: Option<&KeptItems>,
    clash: Option<usize>,
) -> Result<Body, Memory>
    requires few { length scope.now.text.now < 2 ^ 32 }
    requires clash { HasClash scope.now clash }
    requires kept { IfSome kept (λ k. k.now ≡ items scope.now.text.now) }
    ensures { IfOk result (IsBody scope.now.text.now) }
{
    let instances = Instances::new(alloc);
    let assigned = Runs::new(alloc);
    let mut body = Body {
        firsts: Firsts {
            clash,
            twice: None,
            grammar: None,
        },
        instances,
        assigned,
        end: None,
    };
    let mut seen = Seen::new(alloc, scope.text.len())?;
    let mut items = ItemsAgain::new(scope.text, kept);
    let mut item = Item::new(alloc, scope.text.len());
    'item: while items.read(&mut item)? {
        read_item(alloc, scope, &item, &mut seen, &mut body)?;
    }
    Ok(body)
}

/// The first token of a text that is this kind.
fn first_of_kind(text: &[u8], kind: Kind) -> Option<Row>
    requires { length text.now < 2 ^ 32 }
    ensures { result ≡ find (λ r. is kind r.kind) (rows_of text.now) }
{
    let mut rows = Rows::new(text);
    'row: while let Some(row) = rows.next() {
        if is(kind, row.kind) {
            return Some(row);
        }
    }
    None
}

/// Where the head of a module ends: after its first `;`.
pub(crate) fn head_end(text: &[u8]) -> usize
    requires { length text.now < 2 ^ 32 }
    ensures { result ≡ head_end text.now }
{
    match first_of_kind(text, Kind::Semicolon) {
        Some(row) => row.to as usize,
        None => 0,
    }
}

/// The token that names a module.
fn name_token(text: &[u8]) -> Option<Row>
    requires { length text.now < 2 ^ 32 }
    ensures { result ≡ find (is_name_in Head) (rows_of text.now) }
{
    let mut rows = Rows::new(text);
    'row: while let Some(row) = rows.next() {
        if is_name_in(Place::Head, row) {
            return Some(row);
        }
    }
    None
}

/// The name of a module.
pub(crate) fn module_name(alloc: Global, text: &[u8]) -> Result<Name, Memory>
    requires { length text.now < 2 ^ 32 }
    ensures { IfOk result (λ name. name ≡ module_name text.now) }
{
    let name: &[u8] = match name_token(text) {
        Some(row) => name_at(text, row),
        None => b"",
    };
    let name = Name::from_bytes(alloc, name)?;
    Ok(name)
}
