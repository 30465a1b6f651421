//! Where the identifiers of nets stand in a text.

ghost use Rattle.std.specs.Prelude.{◌≡◌, ◌<◌, ◌↔◌, [], ℕ, List, Some, IfOk, IfSome, IsTrue, OnOk};
ghost use Rattle.std.specs.List.{All};
ghost use Rattle.name_tables.specs.Distinct.{number_of};
ghost use Rattle.ver_items.specs.Sections.{name_at};
ghost use Rattle.ver_file.specs.Said.{identifiers_of};
ghost use Rattle.ver_file.specs.Tables.{IsUse, most_uses, with_use};

use std::alloc::Global;
use ver_syntax::Row;
use vg_num::Memory;

/// How many bytes of a text there are for each place that is kept, or more. An ordinary netlist names a net once in
/// twenty bytes; of one that does so much more often, the places behind these are found by names.
const BYTES_A_USE: usize = 16;

/// So many places are kept whatever the text's length is.
const FEW: usize = 1 << 16;

/// Where an identifier of nets stands, with its number.
#[derive(Clone, Copy, Debug, PartialEq, Eq, Drop)]
pub(crate) struct Use {
    pub from: u32,
    pub to: u32,
    pub id: u32,
}

impl Use {
    /// Whether it is that of a token.
    fn is(self, row: Row) -> bool
        ensures { IsTrue result ↔ ((self.from ≡ row.from) × (self.to ≡ row.to)) }
    {
        self.from == row.from && self.to == row.to
    }
}

/// How many places are kept of a text of this length.
fn most_uses(text_len: usize) -> usize
    ensures { result ≡ most_uses text_len }
{
    FEW.max(text_len / BYTES_A_USE)
}

/// No places, with room for all that are kept of a text of this length. Answers `Memory` where there is none.
pub(crate) fn room_for_uses(alloc: Global, text_len: usize) -> Result<Vec<Use>, Memory>
    ensures { IfOk result (λ uses. uses.items ≡ []) }
{
    let uses = Vec::with_capacity(alloc, most_uses(text_len).min(text_len))?;
    Ok(uses)
}

/// Puts a place last, unless as many are there as are kept of a text of this length.
pub(crate) fn keep_use(text_len: usize, place: Use, uses: &mut Vec<Use>) -> Result<(), Memory>
    ensures { OnOk result (uses.new.items ≡ with_use (most_uses text_len) place uses.old.items) }
{
    if uses.len() < most_uses(text_len) {
        uses.push(place)?;
    }
    Ok(())
}

/// The number of the identifier that a token is, by a walk over the places of identifiers from one of them back and on;
/// and the one after it. `None`: it is not found so.
pub(crate) fn find_use(uses: &[Use], start: usize, row: Row) -> (usize, Option<u32>)
    ensures { (text : List ℕ) → All (IsUse text (identifiers_of text)) uses.now
        → IfSome result.1 (λ id. Some id ≡ number_of (identifiers_of text) (name_at text row)) }
{
    let mut at = start.min(uses.len());
    'back: while at > 0 && row.from <= uses[at - 1].from {
        at -= 1;
    }
    'place: while at < uses.len() && uses[at].from < row.from {
        at += 1;
    }
    match uses.get(at) {
        Some(found) if found.is(row) => (at + 1, Some(found.id)),
        _ => (at, None),
    }
}
