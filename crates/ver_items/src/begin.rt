//! What sections begin with.

ghost use Rattle.std.specs.Prelude.{◌≡◌};
ghost use Rattle.std.specs.List.{position};
ghost use Rattle.ver_items.specs.Begins.{begins};
ghost use Rattle.ver_items.specs.Declarations.{begins_declaration};

use crate::token::{is_identifier, is_name_in, stands_in};
use ver_syntax::{Place, Row};
use ver_text::Kind;

/// What sections begin with.
#[derive(Clone, Copy, Debug, PartialEq, Eq, Drop)]
pub enum Begin {
    /// A direction, or a type of nets at the start of an item.
    Declaration,
    /// An identifier in an assignment.
    Assigned,
    /// An identifier.
    Identifier,
    /// The identifier of an instance.
    Instance,
    /// The identifier of a pin.
    Pin,
    /// A token outside of connections.
    Outside,
}

/// Whether a token begins a declaration: a direction, or a type of nets at the start of an item.
pub fn begins_declaration(row: Row) -> bool
    ensures { result ≡ begins_declaration row }
{
    match row.kind {
        Kind::Direction => true,
        Kind::Wire | Kind::NetType => stands_in(Place::Start, row),
        _ => false,
    }
}

impl Begin {
    /// Whether a token begins a section.
    #[inline(always)]
    pub(crate) fn begins(self, row: Row) -> bool
        ensures { result ≡ begins self row }
    {
        match self {
            Begin::Declaration => begins_declaration(row),
            Begin::Assigned => is_name_in(Place::Assignment, row),
            Begin::Identifier => is_identifier(row),
            Begin::Instance => is_name_in(Place::Instances, row),
            Begin::Pin => is_name_in(Place::Pins, row),
            Begin::Outside => !stands_in(Place::Connection, row),
        }
    }

    /// The number of the first of some tokens that begins a section.
    #[inline(always)]
    pub(crate) fn position(self, rows: &[Row]) -> Option<usize>
        ensures { result ≡ position (begins self) rows.now }
    {
        rows.iter().position(|row| self.begins(*row))
    }
}
