//! Phrases of tokens that a machine reads at once. Most tokens of a netlist stand in one of these.

ghost use Rattle.std.specs.Prelude.{IfSome};
ghost use Rattle.ver_syntax.specs.declared.state.At.TheVariants.{Item as AtItem, Instance as AtInstance};
ghost use Rattle.ver_syntax.specs.declared.state.Instance.TheVariants.{Pins, PinEnd};
ghost use Rattle.ver_syntax.specs.declared.state.Item.TheVariants.{Start as ItemStart};
ghost use Rattle.ver_syntax.specs.Phrases.{IsPhrase};
ghost use Rattle.ver_syntax.specs.Rows.{kinds_in};

use crate::row::Row;
use crate::state::{At, Instance, Item};
use ver_text::Kind;

/// The tokens after `CELL NAME (`.
#[inline(always)]
fn past_name(rows: &[Row]) -> Option<&[Row]>
    ensures { IfSome result (λ left.
        IsPhrase (AtItem ItemStart) (AtInstance Pins) (kinds_in rows.now) (kinds_in left.now)) }
{
    let [cell, name, open, left @ ..] = rows else {
        return None;
    };
    match (cell.kind, name.kind, open.kind) {
        (Kind::Identifier, Kind::Identifier, Kind::Open) => Some(left),
        _ => None,
    }
}

/// The tokens after `. PIN ( NET )`.
#[inline(always)]
fn past_connection(rows: &[Row]) -> Option<&[Row]>
    ensures { IfSome result (λ left.
        IsPhrase (AtInstance Pins) (AtInstance PinEnd) (kinds_in rows.now) (kinds_in left.now)) }
{
    let [dot, pin, open, net, close, left @ ..] = rows else {
        return None;
    };
    match (dot.kind, pin.kind, open.kind, net.kind, close.kind) {
        (Kind::Dot, Kind::Identifier, Kind::Open, Kind::Identifier, Kind::Close) => Some(left),
        _ => None,
    }
}

/// The tokens after `, . PIN ( NET )`.
#[inline(always)]
fn past_next_connection(rows: &[Row]) -> Option<&[Row]>
    ensures { IfSome result (λ left.
        IsPhrase (AtInstance PinEnd) (AtInstance PinEnd) (kinds_in rows.now) (kinds_in left.now)) }
{
    let [comma, dot, pin, open, net, close, left @ ..] = rows else {
        return None;
    };
    match (
        comma.kind, dot.kind, pin.kind, open.kind, net.kind, close.kind,
    ) {
        (Kind::Comma, Kind::Dot, Kind::Identifier, Kind::Open, Kind::Identifier, Kind::Close) =>
            Some(left),
        _ => None,
    }
}

/// The tokens after `) ;`.
#[inline(always)]
fn past_end(rows: &[Row]) -> Option<&[Row]>
    ensures { IfSome result (λ left.
        IsPhrase (AtInstance PinEnd) (AtItem ItemStart) (kinds_in rows.now) (kinds_in left.now)) }
{
    let [close, end, left @ ..] = rows else {
        return None;
    };
    match (close.kind, end.kind) {
        (Kind::Close, Kind::Semicolon) => Some(left),
        _ => None,
    }
}

/// The same after the connection of a pin.
#[inline(always)]
fn past_pin(rows: &[Row]) -> Option<(At, &[Row])>
    ensures { IfSome result (λ found. IsPhrase (AtInstance PinEnd) found.0 (kinds_in rows.now) (kinds_in found.1.now)) }
{
    if let Some(left) = past_next_connection(rows) {
        return Some((At::Instance(Instance::PinEnd), left));
    }
    let left = past_end(rows)?;
    Some((At::Item(Item::Start), left))
}

/// Where the machine stands after a phrase, and the tokens after it, where one comes at its place.
#[inline(always)]
pub(crate) fn past_phrase(at: At, rows: &[Row]) -> Option<(At, &[Row])>
    ensures { IfSome result (λ found. IsPhrase at found.0 (kinds_in rows.now) (kinds_in found.1.now)) }
{
    match at {
        At::Item(Item::Start) => {
            let left = past_name(rows)?;
            Some((At::Instance(Instance::Pins), left))
        }
        At::Instance(Instance::Pins) => {
            let left = past_connection(rows)?;
            Some((At::Instance(Instance::PinEnd), left))
        }
        At::Instance(Instance::PinEnd) => past_pin(rows),
        _ => None,
    }
}
