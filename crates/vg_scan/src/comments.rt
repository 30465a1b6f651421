//! Comments: found, and made blank.

ghost use Rattle.std.specs.Prelude.{◌≡◌, ◌+◌, ◌<◌, ◌≤◌, None, min, length, drop, IfOk, IfSome};
ghost use Rattle.vg_scan.specs.Comments.{without_comments};
ghost use Rattle.vg_scan.specs.Next.{IsNextComment};
ghost use Rattle.vg_scan.specs.Pieces.{first_length, begins_comment, is_comment_mark};

use crate::clear::clear_comments;
use crate::liberty_pieces::liberty_piece_end;
use crate::lines::Span;
use crate::search::mark_at;
use crate::spef_pieces::spef_piece_end;
use std::alloc::Global;
use vg_num::Memory;

/// Which comments a text has.
#[derive(Clone, Copy, Debug, PartialEq, Eq)]
pub enum Comments {
    /// Those of SPEF (IEEE Std 1481).
    ///
    /// One runs from `//` to its line's end, or from `/*` to the next `*/`, else to the text's end. None begins in a
    /// string, which ends at its second quote or at its line's end. Outside strings a backslash hides the byte after
    /// it.
    Spef,
    /// Those of Liberty (Liberty User Guide, Synopsys).
    ///
    /// One runs from `/*` to the next `*/`, else to the text's end; `//` begins none. None begins in a string, which
    /// ends at its second quote or at its line's end, unless a backslash stands just before that end. Outside strings a
    /// backslash hides the byte after it.
    Liberty,
}

/// The text with a space in place of each byte of its comments that is no newline. Answers `Memory` where there is no
/// room.
pub fn skip_comments(alloc: Global, bytes: &[u8], kind: Comments) -> Result<Vec<u8>, Memory>
    ensures text { IfOk result (λ text. text.items ≡ without_comments kind bytes.now) }
    ensures length { IfOk result (λ text. length text.items ≡ length bytes.now) }
{
    let mut text = Vec::from_slice(alloc, bytes)?;
    clear_comments(text.as_mut_slice(), kind);
    Ok(text)
}

/// The next comment of a text, from a place on at which a piece of the text begins: the text's first byte, or the byte
/// behind a comment. `None`: there is none.
pub fn next_comment(text: &[u8], at: usize, kind: Comments) -> Option<Span>
    requires { at ≤ length text.now }
    ensures none { result ≡ None → without_comments kind (drop at text.now) ≡ drop at text.now }
    ensures found { IfSome result (λ span. IsNextComment kind text.now at span.from span.to) }
{
    let mut from = mark_at(text, at);
    'piece: while from < text.len() {
        let to = piece_end(text, from, kind);
        if is_comment(text, from, kind) {
            return Some(Span { from, to });
        }
        from = mark_at(text, to);
    }
    None
}

/// Where the piece ends that begins at a place.
fn piece_end(text: &[u8], at: usize, kind: Comments) -> usize
    requires { at < length text.now }
    ensures { result ≡ min (at + first_length kind (drop at text.now)) (length text.now) }
{
    match kind {
        Comments::Spef => spef_piece_end(text, at),
        Comments::Liberty => liberty_piece_end(text, at),
    }
}

/// Whether the piece that begins at a place is a comment.
fn is_comment(text: &[u8], at: usize, kind: Comments) -> bool
    requires { at < length text.now }
    ensures { result ≡ begins_comment kind (drop at text.now) }
{
    if at + 1 == text.len() {
        return false;
    }
    is_comment_mark(text[at], text[at + 1], kind)
}

fn is_comment_mark(byte: u8, next: u8, kind: Comments) -> bool
    ensures { result ≡ is_comment_mark kind byte next }
{
    let is_line = byte == b'/' && next == b'/';
    let is_block = byte == b'/' && next == b'*';
    match kind {
        Comments::Spef => is_line || is_block,
        Comments::Liberty => is_block,
    }
}
