//! What is wrong with statements of a library, and the first of it.

ghost use Rattle.std.specs.Prelude.{◌≡◌, option_to_list, nat_lt};
ghost use Rattle.std.specs.List.{list_any};
ghost use Rattle.vg_scan.specs.Lines.{is_newline};
ghost use Rattle.lib_text.specs.Syntax.{line_at};
ghost use Rattle.lib_cells.specs.FirstFlaws.{earlier, fault_of, first_of};
ghost use Rattle.lib_cells.specs.Flaws.{flaw, is_before, is_before_on_line, rank};

use crate::fault::{LibFault, LibKind};
use lib_text::{Statement, line_at};

/// What is wrong with a statement, and where its name begins.
#[derive(Clone, Copy, Debug, PartialEq, Eq, Drop)]
pub(crate) struct Flaw {
    pub place: usize,
    pub kind: LibKind,
}

/// The order of kinds on one line.
fn rank(kind: LibKind) -> u8
    ensures { result ≡ rank kind }
{
    match kind {
        LibKind::Syntax => 0,
        LibKind::NotLinear => 1,
        LibKind::Unit => 2,
        LibKind::CellTwice => 3,
        LibKind::Number(_) => 4,
        LibKind::Slope => 5,
        LibKind::TooManyRepeaters => 6,
        LibKind::Memory => 7,
    }
}

fn has_newline(bytes: &[u8]) -> bool
    ensures { result ≡ list_any is_newline bytes.now }
{
    bytes.iter().any(|byte| *byte == b'\n')
}

/// Whether a place stands on an earlier line than another one.
fn is_line_before(bytes: &[u8], place: usize, other: usize) -> bool
    ensures { result ≡ nat_lt (line_at bytes.now place) (line_at bytes.now other) }
{
    let last = bytes.len().saturating_sub(1);
    let from = place.min(last);
    let to = other.min(last);
    from < to && has_newline(&bytes[from..to])
}

impl Flaw {
    /// What is wrong with a statement.
    pub fn new(kind: LibKind, statement: Statement) -> Flaw
        ensures { result ≡ flaw kind statement }
    {
        Flaw {
            place: statement.name as usize,
            kind,
        }
    }

    /// The fault that tells it by its line.
    pub fn to_fault(self, bytes: &[u8]) -> LibFault
        ensures { result ≡ fault_of bytes.now self }
    {
        LibFault {
            kind: self.kind,
            line: line_at(bytes, self.place),
        }
    }

    /// Whether it comes before another one that stands on the same line.
    fn is_before_on_line(self, other: Flaw) -> bool
        ensures { result ≡ is_before_on_line self other }
    {
        let rank_of_self = rank(self.kind);
        let rank_of_other = rank(other.kind);
        rank_of_self < rank_of_other || rank_of_self == rank_of_other && self.place < other.place
    }

    /// Whether it comes before another one: on an earlier line; on one line by its kind; of one kind where it stands
    /// earlier.
    fn is_before(self, bytes: &[u8], other: Flaw) -> bool
        ensures { result ≡ is_before bytes.now self other }
    {
        is_line_before(bytes, self.place, other.place)
            || !is_line_before(bytes, other.place, self.place) && self.is_before_on_line(other)
    }
}

/// A flaw, or the one before it where that comes first.
fn earlier(bytes: &[u8], first: Option<Flaw>, flaw: Flaw) -> Option<Flaw>
    ensures { result ≡ earlier bytes.now first flaw }
{
    match first {
        Some(first) if !flaw.is_before(bytes, first) => Some(first),
        _ => Some(flaw),
    }
}

/// The first of two flaws, where they are there.
pub(crate) fn first_of(bytes: &[u8], first: Option<Flaw>, flaw: Option<Flaw>) -> Option<Flaw>
    ensures { result ≡ first_of bytes.now first (option_to_list flaw) }
{
    match flaw {
        Some(flaw) => earlier(bytes, first, flaw),
        None => first,
    }
}
