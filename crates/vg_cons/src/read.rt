//! The lines of a text, one after another.

ghost use Rattle.std.specs.Prelude.{◌≡◌, ◌^◌, ◌≤◌, length, IfOk, IfErr, OnOk, ◌⊎◌};
ghost use Rattle.std.specs.List.{before_first};
ghost use Rattle.vg_scan.specs.Lines.{words};
ghost use Rattle.vg_scan.specs.Spans.{IsIn, part_at, words_at};
ghost use Rattle.vg_cons.specs.declared.fault.ConsKind.TheVariants.{Memory};
ghost use Rattle.vg_cons.specs.Lines.{is_hash, lines_of};
ghost use Rattle.vg_cons.specs.Rows.{rows_of};
ghost use Rattle.vg_cons.specs.Growth.{no_rows};
ghost use Rattle.vg_cons.specs.Faults.{IsFaultless, IsFaultIn};
ghost use Rattle.vg_cons.specs.Views.{Takes, TakesRow};

use crate::constraints::Constraints;
use crate::fault::{ConsFault, ConsKind};
use crate::format::Format;
use crate::line::{heading_of, is_of_second, read_row, without_comment};
use std::alloc::Global;
use vg_scan::{Span, next_line, words_of};

/// Takes the words of a line that states a row, in a text of this version.
fn take_row(
    alloc: Global,
    cons: &mut Constraints,
    format: Format,
    bytes: &[u8],
    words: &[Span],
) -> Result<(), ConsKind>
    ensures { TakesRow result format cons.old cons.new (words_at bytes.now words.now) }
{
    if format == Format::First && is_of_second(bytes, words) {
        return Err(ConsKind::Word);
    }
    let row = read_row(alloc, bytes, words)?;
    cons.add(row)
}

/// Takes a line's words: the first line that has any is the heading, and the others state rows.
fn take_words(
    alloc: Global,
    cons: &mut Constraints,
    bytes: &[u8],
    words: &[Span],
) -> Result<(), ConsKind>
    ensures { Takes result cons.old cons.new (words_at bytes.now words.now) }
{
    if words.is_empty() {
        return Ok(());
    }
    match cons.format() {
        None => cons.begin(heading_of(bytes, words)),
        Some(format) => take_row(alloc, cons, format, bytes, words),
    }
}

/// The same of a line with its comment. The list is to hold its words.
fn take_line(
    alloc: Global,
    cons: &mut Constraints,
    bytes: &[u8],
    line: Span,
    found: &mut Vec<Span>,
) -> Result<(), ConsKind>
    requires { IsIn bytes.now line }
    ensures { Takes result cons.old cons.new (words (before_first is_hash (part_at bytes.now line))) }
{
    match words_of(bytes, without_comment(bytes, line), found) {
        Err(_) => Err(ConsKind::Memory),
        Ok(()) => take_words(alloc, cons, bytes, found.as_slice()),
    }
}

/// Adds the rows of a text, or gives its first fault.
fn read_lines(alloc: Global, cons: &mut Constraints, bytes: &[u8]) -> Result<(), ConsFault>
    requires few { length bytes.now ≤ 2 ^ 28 }
    requires none { cons.old ≡ no_rows }
    ensures faultless { OnOk result (IsFaultless (lines_of bytes.now)) }
    ensures rows { OnOk result (cons.new ≡ rows_of (lines_of bytes.now)) }
    ensures fault { IfErr result (λ fault. (fault.kind ≡ Memory) ⊎ IsFaultIn (lines_of bytes.now) fault) }
{
    let mut found = Vec::new(alloc);
    let mut count = 0usize;
    let mut at = 0usize;
    'line: while let Some((line, next)) = next_line(bytes, at) {
        count += 1;
        match take_line(alloc, cons, bytes, line, &mut found) {
            Err(kind) => return Err(ConsFault { kind, line: count }),
            Ok(()) => {}
        }
        at = next;
    }
    if cons.format().is_none() {
        return Err(ConsFault {
            kind: ConsKind::Version,
            line: count.max(1),
        });
    }
    Ok(())
}

/// The rows, readied for look-ups. Answers `Memory` where there is no room.
fn arranged(mut cons: Constraints) -> Result<Constraints, ConsFault>
    ensures rows { IfOk result (λ ready. ready ≡ cons) }
    ensures fault { IfErr result (λ fault. fault.kind ≡ Memory) }
{
    match cons.arrange() {
        Ok(()) => Ok(cons),
        Err(_) => Err(ConsFault {
            kind: ConsKind::Memory,
            line: 1,
        }),
    }
}

/// The version and the rows of a constraints text, or its first fault with the number of its line.
///
/// Answers `Memory` where there is no room, with the line at which it was wanted.
pub fn read_constraints(alloc: Global, bytes: &[u8]) -> Result<Constraints, ConsFault>
    requires { length bytes.now ≤ 2 ^ 28 }
    ensures faultless { IfOk result (λ _. IsFaultless (lines_of bytes.now)) }
    ensures rows { IfOk result (λ cons. cons ≡ rows_of (lines_of bytes.now)) }
    ensures fault { IfErr result (λ fault. (fault.kind ≡ Memory) ⊎ IsFaultIn (lines_of bytes.now) fault) }
{
    let Ok(mut cons) = Constraints::new(alloc, bytes.len()) else {
        return Err(ConsFault {
            kind: ConsKind::Memory,
            line: 1,
        });
    };
    match read_lines(alloc, &mut cons, bytes) {
        Ok(()) => arranged(cons),
        Err(fault) => Err(fault),
    }
}
