//! The runs of the program that a page shows.
//!
//! A run stands in a block between two lines that begin with three backquotes. It is a line `$ ./vginsert WORDS`, and
//! below it the lines that are printed, up to the next line with a command or the end of the block.
ghost use Rattle.std.specs.Prelude.{◌≤◌, length, IfOk, IfSome};
ghost use Rattle.std.specs.List.{All};
ghost use Rattle.vg_scan.specs.Spans.{IsIn};

use std::alloc::Global;
use vg_num::Memory;
use vg_scan::{Span, next_line, text_at};

/// What a command begins with.
const COMMAND: &[u8] = b"$ ";

/// What a command of the program begins with.
const PROGRAM: &[u8] = b"$ ./vginsert ";

/// What the lines before and after a block begin with.
const FENCE: &[u8] = b"```";

/// A run that a page shows.
#[derive(Clone, Copy)]
pub(crate) struct Shown {
    /// The number of the command's line; the first line of the page is 1.
    pub(crate) line: usize,
    /// What stands there after the program's name.
    pub(crate) words: Span,
    /// The lines that are printed.
    pub(crate) output: Span,
}

/// What follows the program's name in a line that is a command of the program.
fn words_in(page: &[u8], line: Span) -> Option<Span>
    requires { IsIn page.now line }
    ensures { IfSome result (IsIn page.now) }
{
    if !text_at(page, line).starts_with(PROGRAM) {
        return None;
    }
    Some(Span {
        from: line.from + PROGRAM.len(),
        to: line.to,
    })
}

/// Where the lines that are printed end, which begin at a place.
fn output_end(page: &[u8], from: usize) -> usize
    requires { from ≤ length page.now }
    ensures { (from ≤ result) × (result ≤ length page.now) }
{
    let mut at = from;
    'line: while let Some((line, next)) = next_line(page, at) {
        let text = text_at(page, line);
        if text.starts_with(COMMAND) || text.starts_with(FENCE) {
            return at;
        }
        at = next;
    }
    at
}

/// The runs that a page shows, in their order.
pub(crate) fn runs_of(alloc: Global, page: &[u8]) -> Result<Vec<Shown>, Memory>
    ensures words { IfOk result (λ runs. All (λ shown. IsIn page.now shown.words) runs.items) }
    ensures output { IfOk result (λ runs. All (λ shown. IsIn page.now shown.output) runs.items) }
{
    let mut runs = Vec::new(alloc);
    let mut in_block = false;
    let mut count = 0usize;
    let mut at = 0usize;
    'line: while let Some((line, next)) = next_line(page, at) {
        count += 1;
        if text_at(page, line).starts_with(FENCE) {
            in_block = !in_block;
        }
        if in_block && let Some(words) = words_in(page, line) {
            runs.push(Shown {
                line: count,
                words,
                output: Span {
                    from: next,
                    to: output_end(page, next),
                },
            })?;
        }
        at = next;
    }
    Ok(runs)
}
