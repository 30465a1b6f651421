//! The lines of a net.

ghost use Rattle.std.specs.Prelude.{◌≡◌, ◌≢◌, ℕ, ◌+◌, ◌<◌, ◌≤◌, ◌^◌, length, slice_index};
ghost use Rattle.std.specs.Str.Lines.{lines};
ghost use Rattle.vg_scan.specs.Lines.{BeginsLine};
ghost use Rattle.spef_file.specs.Indexes.{IsSectionOf, between, lines_after};

use crate::section::Section;
use crate::spef_text::SpefText;
use vg_scan::{Span, next_line, text_at};

/// Where the last line of a text begins.
fn last_start(text: &[u8]) -> usize
    requires { 0 < length text.now }
    ensures begins { BeginsLine text.now result }
    ensures last { (k : ℕ) → result ≤ k → k + 1 < length text.now → slice_index text.now k ≢ 10 }
    ensures within { result < length text.now }
{
    let mut at = text.len() - 1;
    'back: while at > 0 && text[at - 1] != b'\n' {
        at -= 1;
    }
    at
}

/// The lines of a text between its first and its last.
fn inner_text(text: &[u8]) -> &[u8]
    ensures lines { lines result.now ≡ between (lines text.now) }
    ensures within { length result.now ≤ length text.now }
{
    match next_line(text, 0) {
        None => text,
        Some((_, from)) => {
            let to = last_start(text).max(from);
            &text[from..to]
        }
    }
}

/// The lines of a net, those between its head and its `*END`. Other parts of the text are not read.
pub fn net_lines<'a>(text: &'a SpefText, section: &Section) -> &'a [u8]
    requires { IsSectionOf text.now section.now }
    ensures lines { lines result.now ≡ lines_after text.now section.now.line }
    ensures length { length result.now ≤ 2 ^ 28 }
{
    let bytes = text.as_bytes();
    let span = Span {
        from: section.from as usize,
        to: section.to as usize,
    };
    inner_text(text_at(bytes, span))
}
