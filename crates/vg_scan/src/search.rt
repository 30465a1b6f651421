//! Where the pieces of a text end: the searches that both kinds of comments share.

ghost use Rattle.std.specs.Prelude.{◌≡◌, ◌+◌, ◌==◌, ◌≤◌, length, drop};
ghost use Rattle.std.specs.List.{position_or_len};
ghost use Rattle.vg_scan.specs.Comments.{through_block};
ghost use Rattle.vg_scan.specs.Pieces.{is_mark, is_star};

use crate::lines::text_from;
use memchr::{memchr, memchr3};

/// Where the first byte stands, from a place on, that may begin a comment, a string or an escape; else the text's end.
pub(crate) fn mark_at(text: &[u8], at: usize) -> usize
    requires { at ≤ length text.now }
    ensures place { result ≡ at + position_or_len is_mark (drop at text.now) }
    ensures within { result ≤ length text.now }
{
    let rest = text_from(text, at);
    at + memchr3(b'\\', b'"', b'/', rest).unwrap_or(rest.len())
}

/// Where a byte stands first, from a place on; else the text's end.
pub(crate) fn byte_at(byte: u8, text: &[u8], at: usize) -> usize
    requires { at ≤ length text.now }
    ensures place { result ≡ at + position_or_len (λ b. b == byte) (drop at text.now) }
    ensures within { result ≤ length text.now }
{
    let rest = text_from(text, at);
    at + memchr(byte, rest).unwrap_or(rest.len())
}

/// Where a star stands first, from a place on; else the text's end. In a row of stars no search is begun.
fn star_at(text: &[u8], at: usize) -> usize
    requires { at ≤ length text.now }
    ensures place { result ≡ at + position_or_len is_star (drop at text.now) }
    ensures within { result ≤ length text.now }
{
    if at < text.len() && text[at] == b'*' {
        return at;
    }
    byte_at(b'*', text, at)
}

/// Where a comment ends whose first two bytes stand before a place: after the next `*/`, or at the text's end.
pub(crate) fn block_end(text: &[u8], at: usize) -> usize
    requires { at ≤ length text.now }
    ensures place { result ≡ at + through_block (drop at text.now) }
    ensures within { result ≤ length text.now }
{
    let mut star = star_at(text, at);
    'star: while star + 1 < text.len() {
        if text[star + 1] == b'/' {
            return star + 2;
        }
        star = star_at(text, star + 1);
    }
    text.len()
}
