//! What an item has besides instances. Most items of a netlist have instances alone, which one walk over their tokens
//! finds.

ghost use Rattle.std.specs.Prelude.{◌≡◌, drop};
ghost use Rattle.std.specs.List.{list_any};
ghost use Rattle.ver_items.specs.Others.{HasOthers, is_of_others};

use crate::stretch::Stretch;
use crate::token::stands_in;
use ver_syntax::{Place, Row};
use ver_text::Kind;

/// Whether a token begins a declaration, ends the module, or is an identifier of a port or in an assignment.
#[inline(always)]
fn is_of_others(row: Row) -> bool
    ensures { result ≡ is_of_others row }
{
    match row.kind {
        Kind::Direction | Kind::EndModule => true,
        Kind::Wire | Kind::NetType => stands_in(Place::Start, row),
        Kind::Identifier => stands_in(Place::Ports, row) || stands_in(Place::Assignment, row),
        _ => false,
    }
}

/// Whether any of some tokens is such a one.
fn have_others<T: Stretch>(rows: &T) -> bool
    ensures { result ≡ list_any is_of_others (T.tokens rows.now) }
{
    let mut left = rows.again();
    'row: while let Some(row) = left.next() {
        if is_of_others(row) {
            return true;
        }
    }
    false
}

/// The tokens of an item that has more than instances; else none.
pub fn others_in<T: Stretch>(rows: &T) -> T
    ensures { HasOthers (T.tokens rows.now) (T.tokens result) }
{
    if have_others(rows) {
        rows.again()
    } else {
        rows.first(0)
    }
}

/// The tokens after the first.
pub fn after_first<T: Stretch>(rows: &T) -> T
    ensures { T.tokens result ≡ drop 1 (T.tokens rows.now) }
{
    let mut after = rows.again();
    after.next();
    after
}
