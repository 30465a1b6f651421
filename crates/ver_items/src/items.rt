//! The items of a module, one after another.

ghost use Rattle.std.specs.List.{list_any};
ghost use Rattle.std.specs.Prelude.{◌≡◌, ◌<◌, ◌^◌, ◌+◌, ◌++◌, ◌∷◌, [], List, nat_lt, length, true, false, unwrap_or, IfOk, OnOk};
ghost use Rattle.ver_syntax.specs.Grammar.{is};
ghost use Rattle.ver_text.specs.declared.kind.Kind.TheVariants.{Semicolon};
ghost use Rattle.ver_text.specs.declared.kind.Kind.{Kind as KindSpec};
ghost use Rattle.ver_syntax.specs.Reading.{HasKinds};
ghost use Rattle.ver_syntax.specs.Rows.{kinds_in};
ghost use Rattle.ver_syntax.specs.Syntax.{BeginNoModule, AreModule};
ghost use Rattle.ver_items.specs.declared.items.Found.TheVariants.{End as AtEnd, Item as AnItem, Refused as IsRefused};
ghost use Rattle.ver_items.specs.Sections.{items};
ghost use Rattle.ver_items.specs.Stretches.{IsHeldOn};
ghost use Rattle.ver_items.specs.SectionSteps.{IsItem, rows_in, section_in};

use crate::cut::Cut;
use crate::item::{Item, Room, in_place, not_held};
use crate::token::is;
use std::marker::Model;
use ver_syntax::{Machine, Row, Rows};
use ver_text::Kind;
use vg_num::Memory;

/// The most tokens that are read before a machine reads them.
const MOST: usize = 1024;

/// The sum of two counts of tokens.
fn sum(count: usize, more: usize) -> Result<usize, Memory>
    ensures { IfOk result (λ sum. sum ≡ count + more) }
{
    match count.checked_add(more) {
        Some(sum) => Ok(sum),
        None => Err(Memory),
    }
}

/// Puts a token last that comes after so many, if these are held and are not too many.
fn hold_next(row: Row, before: usize, room: &mut Room) -> Result<(), Memory>
    ensures { OnOk result (IsHeldOn before (row ∷ []) room.old.held.items room.new.held.items) }
{
    if room.held.len() == before && before < room.most {
        room.held.push(row)?;
    }
    Ok(())
}

/// Reads the tokens up to the next `;`, or all that are left, and holds them if they are not too many. Where they are,
/// if they are not held.
fn read_item<'a>(rows: &mut Rows<'a>, room: &mut Room) -> Result<Option<Cut<'a>>, Memory>
    ensures cut { IfOk result (λ others. rows.old ≡ unwrap_or others room.new.held.items ++ rows.new) }
    ensures ends { IfOk result (λ others. IsItem (unwrap_or others room.new.held.items) rows.new) }
{
    room.held.clear();
    let start = rows.again();
    let mut count = 0usize;
    'row: while let Some(row) = rows.next() {
        hold_next(row, count, room)?;
        count = sum(count, 1)?;
        if is(Kind::Semicolon, row.kind) {
            return Ok(not_held(&start, count, &room.held));
        }
    }
    Ok(not_held(&start, count, &room.held))
}

/// Puts the next tokens, up to the next `;`, but no more than a part has, in place of what the list held. Whether an
/// item ends with them.
fn read_part(rows: &mut Rows<'_>, part: &mut Vec<Row>) -> Result<bool, Memory>
    ensures cut { OnOk result (rows.old ≡ part.new.items ++ rows.new) }
    ensures ends { IfOk result (λ ended. ended ≡ true → IsItem part.new.items rows.new) }
    ensures none { IfOk result (λ ended. ended ≡ false → list_any (λ r. is Semicolon r.kind) part.new.items ≡ false) }
    ensures fewer { IfOk result (λ ended. ended ≡ false → length rows.new < length rows.old) }
{
    part.clear();
    'row: for _turn in 0..MOST {
        let Some(row) = rows.next() else {
            return Ok(true);
        };
        part.push(row)?;
        if is(Kind::Semicolon, row.kind) {
            return Ok(true);
        }
    }
    Ok(false)
}

/// Puts a part last that comes after so many tokens, if these are held and it is not too much.
fn hold(before: usize, room: &mut Room) -> Result<(), Memory>
    ensures part { OnOk result (room.new.part.items ≡ room.old.part.items) }
    ensures held { OnOk result (IsHeldOn before room.old.part.items room.old.held.items room.new.held.items) }
{
    if room.held.len() == before && before <= room.most {
        room.held.extend_from_slice(&room.part)?;
    }
    Ok(())
}

/// The same as `read_item`, where a machine reads the tokens too, and no further than a module can begin so. Whether
/// one can.
fn read_item_by<'a>(
    machine: &mut Machine,
    rows: &mut Rows<'a>,
    room: &mut Room,
) -> Result<(bool, Option<Cut<'a>>), Memory>
    ensures cut { IfOk result (λ read. rows.old ≡ unwrap_or read.1 room.new.held.items ++ rows.new) }
    ensures ends { IfOk result (λ read. read.0 ≡ true → IsItem (unwrap_or read.1 room.new.held.items) rows.new) }
    ensures kinds { (kinds : List KindSpec) → HasKinds kinds machine.old
        → IfOk result (λ read. HasKinds (kinds ++ kinds_in (unwrap_or read.1 room.new.held.items)) machine.new) }
    ensures refused { (kinds : List KindSpec) → HasKinds kinds machine.old
        → IfOk result (λ read. read.0 ≡ false
        → BeginNoModule (kinds ++ kinds_in (unwrap_or read.1 room.new.held.items))) }
{
    room.held.clear();
    let start = rows.again();
    let mut count = 0usize;
    'part: loop {
        let ended = read_part(rows, &mut room.part)?;
        hold(count, room)?;
        count = sum(count, room.part.len())?;
        let can = machine.read_rows(&room.part)?;
        if ended || !can {
            return Ok((can, not_held(&start, count, &room.held)));
        }
    }
}

/// What is found where an item of a module may stand.
#[derive(Clone, Copy, Debug, PartialEq, Eq, Drop)]
pub enum Found {
    /// The head of a module, an item or a module's end, up to its `;`.
    Item,
    /// The end of the text.
    End,
    /// A token with which no module can go on.
    Refused,
}

/// The head of a module, its items, and its end, one after another. Contracts see the list of those that are left.
///
/// The tokens of one item at a time are held, if they are not too many.
#[derive(Debug, Drop)]
pub struct Items<'a> {
    rows: Rows<'a>,
}

impl<'a> Model for Items<'a> {
    ghost use Rattle.std.specs.Prelude.{List};
    ghost use Rattle.ver_syntax.specs.declared.row.Place.TheVariants.{Start};
    ghost use Rattle.ver_items.specs.Sections.{Section as SectionSpec, sections, stands_in};
    ghost use Rattle.ver_items.specs.SectionSteps.{AreLinked, AtStart};

    ghost Value = { List SectionSpec };

    ghost view = { λ left. sections (stands_in Start) left.rows };

    ghost invariant = { λ left. AreLinked left.rows × AtStart left.rows };
}

impl<'a> Items<'a> {
    /// The items of a text.
    pub fn new(text: &'a [u8]) -> Items<'a>
        requires { length text.now < 2 ^ 32 }
        ensures { result ≡ items text.now }
    {
        Items {
            rows: Rows::new(text),
        }
    }

    /// Reads the tokens of the next item, up to its `;`, in place of those of another. Whether there is one. Answers
    /// `Memory` where there is no room, and then no item is left.
    pub fn read(&mut self, item: &mut Item<'a>) -> Result<bool, Memory>
        ensures next { OnOk result (self.old ≡ section_in item.new ++ self.new) }
        ensures more { IfOk result (λ more. more ≡ nat_lt 0 (length item.new)) }
        ensures end { IfOk result (λ more. more ≡ false → self.old ≡ []) }
    {
        match read_item(&mut self.rows, &mut item.room) {
            Ok(others) => {
                item.others = in_place(others, &mut item.room);
                Ok(!item.is_empty())
            }
            Err(memory) => {
                self.rows = Rows::new(&[]);
                Err(memory)
            }
        }
    }

    /// The same, where a machine reads the tokens too, and no further than a module can begin so. Answers `Memory`
    /// where there is no room.
    pub fn read_by(&mut self, machine: &mut Machine, item: &mut Item<'a>) -> Result<Found, Memory>
        ensures next { IfOk result (λ found. found ≡ AnItem
            → (self.old ≡ section_in item.new ++ self.new) × (0 < length item.new)) }
        ensures end { IfOk result (λ found. found ≡ AtEnd → (self.old ≡ []) × (item.new ≡ [])) }
        ensures kinds { (kinds : List KindSpec) → HasKinds kinds machine.old
            → OnOk result (HasKinds (kinds ++ kinds_in item.new) machine.new) }
        ensures refused { (kinds : List KindSpec) → HasKinds kinds machine.old
            → IfOk result (λ found. found ≡ IsRefused → AreModule (kinds ++ kinds_in (rows_in self.old)) → ⊥) }
    {
        match read_item_by(machine, &mut self.rows, &mut item.room) {
            Ok((can, others)) => {
                item.others = in_place(others, &mut item.room);
                if !can {
                    self.rows = Rows::new(&[]);
                    return Ok(Found::Refused);
                }
                if item.is_empty() {
                    Ok(Found::End)
                } else {
                    Ok(Found::Item)
                }
            }
            Err(memory) => {
                self.rows = Rows::new(&[]);
                Err(memory)
            }
        }
    }
}
