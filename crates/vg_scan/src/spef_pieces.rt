//! The pieces of SPEF: a hidden byte, a string, a comment, or another byte.

ghost use Rattle.std.specs.Prelude.{◌≡◌, ◌+◌, ◌<◌, ◌≤◌, min, length, drop};
ghost use Rattle.vg_scan.specs.Comments.{through_string, piece_length};

use crate::lines::text_from;
use crate::search::{block_end, byte_at};
use memchr::memchr2;

/// Where a string ends whose first quote stands before a place: after its second quote or its newline, or at the text's
/// end.
fn string_end(text: &[u8], at: usize) -> usize
    requires { at ≤ length text.now }
    ensures { result ≡ min (at + through_string (drop at text.now)) (length text.now) }
{
    match memchr2(b'"', b'\n', text_from(text, at)) {
        None => text.len(),
        Some(offset) => at + offset + 1,
    }
}

/// Where the piece ends that begins at a place.
pub(crate) fn spef_piece_end(text: &[u8], at: usize) -> usize
    requires { at < length text.now }
    ensures { result ≡ min (at + piece_length (drop at text.now)) (length text.now) }
{
    if at + 1 == text.len() {
        return at + 1;
    }
    if text[at] == b'\\' {
        return at + 2;
    }
    if text[at] == b'"' {
        return string_end(text, at + 1);
    }
    if text[at] == b'/' && text[at + 1] == b'/' {
        return byte_at(b'\n', text, at + 2);
    }
    if text[at] == b'/' && text[at + 1] == b'*' {
        return block_end(text, at + 2);
    }
    at + 1
}
