//! The end of a net.

ghost use Rattle.std.specs.Prelude.{◌≡◌, ◌≤◌, ◌<◌, ◌+◌, ◌-◌, drop, length, option_map, slice_index, true, false, IfSome, IsTrue};
ghost use Rattle.vg_scan.specs.Lines.{lines_of, part, words, BeginsLine};
ghost use Rattle.vg_scan.specs.Printed.{is_solid};
ghost use Rattle.vg_scan.specs.Spans.{IsIn, part_at};
ghost use Rattle.spef_file.specs.Nets.{end_at, is_end, is_head};
ghost use Rattle.spef_file.specs.NetSpans.{up_to_end};
ghost use Rattle.spef_file.specs.Roles.{IsRole};

use crate::keyword::{is_net, same};
use vg_scan::{Span, next_line, next_word, text_at};

/// What a line is to the net that it may stand in.
#[derive(Clone, Copy)]
pub(crate) enum Role {
    /// The end, whose first word ends here.
    End(usize),
    /// The head of another net.
    Head,
    /// Neither.
    Inner,
}

/// Where a net ends.
#[derive(Clone, Copy)]
pub(crate) struct NetEnd {
    /// How many lines stand before its end.
    pub lines: usize,
    /// Where the word `*END` ends.
    pub to: usize,
    /// Where the line after it begins.
    pub next: usize,
}

/// Whether a line begins with a byte that is neither a blank nor a star: then it is neither an end nor a head.
fn begins_otherwise(bytes: &[u8], line: Span) -> bool
    requires { IsIn bytes.now line }
    ensures { IsTrue result → (is_end (words (part_at bytes.now line)) ≡ false)
        × (is_head (words (part_at bytes.now line)) ≡ false) }
{
    if line.from == line.to {
        return false;
    }
    let byte = bytes[line.from];
    if byte == b'*' {
        return false;
    }
    if byte == b' ' {
        return false;
    }
    if byte == b'\t' {
        return false;
    }
    true
}

fn role_of(bytes: &[u8], line: Span) -> Role
    requires { IsIn bytes.now line }
    ensures { IsRole bytes.now line result }
{
    if begins_otherwise(bytes, line) {
        return Role::Inner;
    }
    match next_word(bytes, line) {
        None => Role::Inner,
        Some((span, _)) => {
            let word = text_at(bytes, span);
            if same(word, b"*END") {
                Role::End(span.to)
            } else if is_net(word) {
                Role::Head
            } else {
                Role::Inner
            }
        }
    }
}

/// The end of a net whose head's line ends before a place. `None`: another head or the text's end comes first.
pub(crate) fn find_end(bytes: &[u8], from: usize) -> Option<NetEnd>
    requires { from ≤ length bytes.now }
    ensures lines { option_map (λ end. end.lines) result ≡ end_at (lines_of (drop from bytes.now)) }
    ensures rest { IfSome result (λ end. lines_of (drop end.next bytes.now)
        ≡ drop (end.lines + 1) (lines_of (drop from bytes.now))) }
    ensures span { IfSome result (λ end. lines_of (part bytes.now from end.to)
        ≡ up_to_end (lines_of (drop from bytes.now))) }
    ensures solid { IfSome result (λ end. is_solid (slice_index bytes.now (end.to - 1)) ≡ true) }
    ensures begins { IfSome result (λ end. BeginsLine bytes.now end.next) }
    ensures place { IfSome result (λ end. (from < end.to) × (from + end.lines < end.next) × (end.to ≤ end.next)
        × (end.next ≤ length bytes.now)) }
{
    let mut at = from;
    let mut lines = 0;
    'line: while let Some((line, next)) = next_line(bytes, at) {
        match role_of(bytes, line) {
            Role::End(to) => return Some(NetEnd { lines, to, next }),
            Role::Head => return None,
            Role::Inner => {}
        }
        lines += 1;
        at = next;
    }
    None
}
