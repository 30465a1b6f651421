//! Tokens with what they stand in, and what they give.

ghost use Rattle.std.specs.Prelude.{◌≡◌};
ghost use Rattle.ver_syntax.specs.Grammar.{is, is_digits};
ghost use Rattle.ver_items.specs.Sections.{bytes_at, is_identifier, is_name_in, is_net_name, is_net_place, is_place, name_at, number_at, stands_in};

use ver_syntax::{Place, Row};
use ver_text::{Kind, name_of, number_of};
use vg_scan::{Span, text_at};

/// Whether two kinds are the same.
pub fn is(kind: Kind, other: Kind) -> bool
    ensures { result ≡ is kind other }
{
    kind == other
}

fn is_place(place: Place, other: Place) -> bool
    ensures { result ≡ is_place place other }
{
    place == other
}

/// Whether a token stands in this.
pub fn stands_in(place: Place, row: Row) -> bool
    ensures { result ≡ stands_in place row }
{
    is_place(place, row.place)
}

/// Whether a kind is that of decimal digits alone.
pub fn is_digits(kind: Kind) -> bool
    ensures { result ≡ is_digits kind }
{
    match kind {
        Kind::Zero | Kind::Small | Kind::Limit | Kind::Large => true,
        _ => false,
    }
}

pub fn is_identifier(row: Row) -> bool
    ensures { result ≡ is_identifier row }
{
    is(Kind::Identifier, row.kind)
}

/// Whether a token is an identifier that stands in this.
pub fn is_name_in(place: Place, row: Row) -> bool
    ensures { result ≡ is_name_in place row }
{
    is_identifier(row) && stands_in(place, row)
}

fn is_net_place(place: Place) -> bool
    ensures { result ≡ is_net_place place }
{
    match place {
        Place::Ports | Place::Declaration | Place::Assignment | Place::Connection => true,
        _ => false,
    }
}

/// Whether a token is an identifier of a scalar or a vector.
pub fn is_net_name(row: Row) -> bool
    ensures { result ≡ is_net_name row }
{
    is_identifier(row) && is_net_place(row.place)
}

/// The bytes of a token.
pub fn bytes_at(text: &[u8], row: Row) -> &[u8]
    ensures { result.now ≡ bytes_at text.now row }
{
    text_at(
        text,
        Span {
            from: row.from as usize,
            to: row.to as usize,
        },
    )
}

/// The name that an identifier gives.
pub fn name_at(text: &[u8], row: Row) -> &[u8]
    ensures { result.now ≡ name_at text.now row }
{
    name_of(bytes_at(text, row))
}

/// The number that digits write.
pub fn number_at(text: &[u8], row: Row) -> u32
    ensures { result ≡ number_at text.now row }
{
    number_of(bytes_at(text, row))
}
