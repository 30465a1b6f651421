//! The pieces of Liberty: a hidden byte, a string, a comment, or another byte.

ghost use Rattle.std.specs.Prelude.{◌≡◌, ◌+◌, ◌<◌, ◌≤◌, length, drop, false};
ghost use Rattle.vg_scan.specs.LibertyComments.{begins_newline, continues, ends_string_in, through_string_in, liberty_piece_length};

use crate::search::block_end;

fn begins_newline(text: &[u8]) -> bool
    ensures { result ≡ begins_newline text.now }
{
    !text.is_empty() && text[0] == b'\n'
}

fn continues(continued: bool, byte: u8, rest: &[u8]) -> bool
    ensures { result ≡ continues continued byte rest.now }
{
    byte == b'\\' || (continued && byte == b'\r' && begins_newline(rest))
}

fn ends_string(continued: bool, byte: u8) -> bool
    ensures { result ≡ ends_string_in continued byte }
{
    byte == b'"' || (byte == b'\n' && !continued)
}

/// Where a string ends whose first quote stands before a place: after its last byte, or at the text's end.
fn string_end(text: &[u8], at: usize) -> usize
    requires { at ≤ length text.now }
    ensures place { result ≡ at + through_string_in false (drop at text.now) }
    ensures within { result ≤ length text.now }
{
    let mut end = at;
    let mut continued = false;
    'string: while end < text.len() {
        let byte = text[end];
        end += 1;
        if ends_string(continued, byte) {
            return end;
        }
        continued = continues(continued, byte, &text[end..]);
    }
    end
}

/// Where the piece ends that begins at a place.
pub(crate) fn liberty_piece_end(text: &[u8], at: usize) -> usize
    requires { at < length text.now }
    ensures place { result ≡ at + liberty_piece_length (drop at text.now) }
    ensures within { result ≤ length text.now }
{
    if at + 1 == text.len() {
        return at + 1;
    }
    if text[at] == b'\\' {
        return at + 2;
    }
    if text[at] == b'"' {
        return string_end(text, at + 1);
    }
    if text[at] == b'/' && text[at + 1] == b'*' {
        return block_end(text, at + 2);
    }
    at + 1
}
