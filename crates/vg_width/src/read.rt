//! The lines of a text, one after another.

ghost use Rattle.std.specs.Prelude.{◌≡◌, ◌≤◌, ◌⊎◌, [], length, drop, IfOk, IfErr, OnOk};
ghost use Rattle.vg_scan.specs.Lines.{words, lines_of};
ghost use Rattle.vg_scan.specs.Spans.{IsIn, part_at, words_at};
ghost use Rattle.vg_width.specs.declared.fault.WidthKind.TheVariants.{Memory};
ghost use Rattle.vg_width.specs.Taking.{Takes, IsHeaded};
ghost use Rattle.vg_width.specs.Texts.{AreLinesOf, IsFaultIn, is_plain};

use crate::fault::{WidthFault, WidthKind};
use crate::line::{is_heading, width_of};
use std::alloc::Global;
use vg_num::Row;
use vg_scan::{Span, next_line, words_of};
use wire_widths::{Width, Widths};

const MOST_WIDTHS: usize = 8;

fn is_plain(width: Width) -> bool
    ensures { result ≡ is_plain width }
{
    width.num == 1 && width.den == 1 && width.add == 0
}

/// Adds the width that the words of a line state to those of the lines before it.
fn take_words(bytes: &[u8], words: &[Span], rows: &mut Vec<Width>) -> Result<(), WidthKind>
    ensures { Takes result rows.old.items rows.new.items (words_at bytes.now words.now) }
{
    let width = width_of(bytes, words)?;
    if rows.is_empty() && !is_plain(width) {
        return Err(WidthKind::First);
    }
    if rows.len() >= MOST_WIDTHS {
        return Err(WidthKind::TooMany);
    }
    match rows.push(width) {
        Ok(()) => Ok(()),
        Err(_) => Err(WidthKind::Memory),
    }
}

/// The same of a line. The list is to hold its words.
fn take_line(
    bytes: &[u8],
    line: Span,
    found: &mut Vec<Span>,
    rows: &mut Vec<Width>,
) -> Result<(), WidthKind>
    requires { IsIn bytes.now line }
    ensures { Takes result rows.old.items rows.new.items (words (part_at bytes.now line)) }
{
    match words_of(bytes, line, found) {
        Err(_) => Err(WidthKind::Memory),
        Ok(()) => take_words(bytes, found.as_slice(), rows),
    }
}

/// Where the line after the heading begins.
fn read_heading(bytes: &[u8], found: &mut Vec<Span>) -> Result<usize, WidthKind>
    ensures place { IfOk result (λ start. start ≤ length bytes.now) }
    ensures headed { IfOk result (λ start. IsHeaded (lines_of bytes.now) (lines_of (drop start bytes.now))) }
    ensures fault { IfErr result (λ kind.
        (kind ≡ Memory) ⊎ IsFaultIn (lines_of bytes.now) (record { kind = kind; line = 1 })) }
{
    let Some((heading, next)) = next_line(bytes, 0) else {
        return Err(WidthKind::Version);
    };
    if words_of(bytes, heading, found).is_err() {
        return Err(WidthKind::Memory);
    }
    if !is_heading(bytes, found.as_slice()) {
        return Err(WidthKind::Version);
    }
    Ok(next)
}

/// Adds the widths of the lines from a place on, the first of which follows the heading.
fn read_rows(
    bytes: &[u8],
    start: usize,
    found: &mut Vec<Span>,
    rows: &mut Vec<Width>,
) -> Result<(), WidthFault>
    requires none { rows.old.items ≡ [] }
    requires place { start ≤ length bytes.now }
    requires headed { IsHeaded (lines_of bytes.now) (lines_of (drop start bytes.now)) }
    ensures widths { OnOk result (AreLinesOf (lines_of bytes.now) rows.new.items) }
    ensures fault { IfErr result (λ fault. (fault.kind ≡ Memory) ⊎ IsFaultIn (lines_of bytes.now) fault) }
{
    let mut at = start;
    'line: while let Some((line, next)) = next_line(bytes, at) {
        let number = rows.len() + 2;
        match take_line(bytes, line, found, rows) {
            Err(kind) => return Err(WidthFault { kind, line: number }),
            Ok(()) => {}
        }
        at = next;
    }
    if rows.is_empty() {
        return Err(WidthFault {
            kind: WidthKind::First,
            line: 1,
        });
    }
    Ok(())
}

/// The widths of a text, or its first fault with the number of its line.
///
/// The first line of the text is `vgwidth 1`, the second is `width 1 1 0`, and up to seven lines `width NUM DEN ADD`
/// follow. Spaces and tabs part their words, and there are no comments and no empty lines. NUM and DEN have one to four
/// digits, and 1 ≤ NUM ≤ DEN ≤ 1000; ADD has one to seven digits, and ADD ≤ 1000000. The width leaves a wire NUM / DEN
/// of its resistance, and adds ADD aF for each Ω that it had.
///
/// Answers the fault of the first line that has one: `Version`, `Word`, `Number`, `First` or `TooMany`, and where a
/// line has several the first of these. A missing line counts as a fault of the last line, and of line 1 in an empty
/// text. Answers `Memory` where there is no room, with the line at which it was wanted.
pub fn read_widths(alloc: Global, bytes: &[u8]) -> Result<Widths, WidthFault>
    ensures widths { IfOk result (λ widths. AreLinesOf (lines_of bytes.now) widths.rows) }
    ensures fault { IfErr result (λ fault. (fault.kind ≡ Memory) ⊎ IsFaultIn (lines_of bytes.now) fault) }
{
    let mut found = Vec::new(alloc);
    let mut rows = Vec::new(alloc);
    let start = match read_heading(bytes, &mut found) {
        Ok(start) => start,
        Err(kind) => return Err(WidthFault { kind, line: 1 }),
    };
    read_rows(bytes, start, &mut found, &mut rows)?;
    Ok(Widths {
        rows: Row::from_vec(rows),
    })
}
