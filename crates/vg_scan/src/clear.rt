//! Comments, made blank in place.

ghost use Rattle.std.specs.Prelude.{◌≡◌, ◌≤◌, ◌++◌, map, length, take, drop};
ghost use Rattle.vg_scan.specs.Comments.{blanked, without_comments};
ghost use Rattle.vg_scan.specs.Lines.{part};

use crate::comments::{Comments, next_comment};
use crate::lines::Span;

fn blanked(byte: u8) -> u8
    ensures { result ≡ blanked byte }
{
    if byte == b'\n' { b'\n' } else { b' ' }
}

/// Puts a space in place of each byte of a part of a text that is no newline.
pub fn blank(text: &mut [u8], span: Span)
    requires { (span.from ≤ span.to) × (span.to ≤ length text.old) }
    ensures blank { text.new ≡ take span.from text.old
        ++ (map blanked (part text.old span.from span.to) ++ drop span.to text.old) }
    ensures length { length text.new ≡ length text.old }
{
    'place: for place in span.from..span.to {
        text[place] = blanked(text[place]);
    }
}

/// Puts a space in place of each byte of a text's comments that is no newline. The text then has no comments.
pub fn clear_comments(text: &mut [u8], kind: Comments)
    ensures clear { text.new ≡ without_comments kind text.old }
    ensures none { without_comments kind text.new ≡ text.new }
    ensures length { length text.new ≡ length text.old }
{
    let mut at = 0;
    'comment: while let Some(comment) = next_comment(text, at, kind) {
        blank(text, comment);
        at = comment.to;
    }
}
