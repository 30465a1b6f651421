//! Comments, taken out of a text.

ghost use Rattle.std.specs.Prelude.{◌≡◌, ◌++◌, ◌∷◌, [], ◌≤◌, length, take, drop, map, IfOk, OnOk};
ghost use Rattle.vg_patch.specs.Kept.{Restores};
ghost use Rattle.vg_patch.specs.Edits.{edit_of, end_of};
ghost use Rattle.vg_scan.specs.Comments.{blanked, without_comments};
ghost use Rattle.vg_scan.specs.Lines.{part};

use crate::Patch;
use crate::kept::KeptComments;
use std::alloc::Global;
use vg_num::Memory;
use vg_scan::{Comments, Span, blank, next_comment, text_at};

/// Keeps a comment behind others, and makes it blank.
fn keep(text: &mut [u8], comment: Span, kept: &mut Patch) -> Result<(), Memory>
    requires behind { end_of kept.old ≤ comment.from }
    requires part { (comment.from ≤ comment.to) × (comment.to ≤ length text.old) }
    ensures kept { OnOk result (kept.new ≡ kept.old ++ edit_of comment (part text.old comment.from comment.to) ∷ []) }
    ensures blank { OnOk result (text.new
        ≡ take comment.from text.old
        ++ (map blanked (part text.old comment.from comment.to) ++ drop comment.to text.old)) }
{
    kept.replace(comment, text_at(text, comment))?;
    blank(text, comment);
    Ok(())
}

/// Takes the comments out of a text: makes them blank, as `clear_comments` does, and keeps them. Answers `Memory` where
/// there is no room for them.
pub fn take_comments(
    alloc: Global,
    text: Vec<u8>,
    kind: Comments,
) -> Result<(Vec<u8>, KeptComments), Memory>
    ensures clear { IfOk result (λ taken. taken.0.items ≡ without_comments kind text.items) }
    ensures none { IfOk result (λ taken. without_comments kind taken.0.items ≡ taken.0.items) }
    ensures kept { IfOk result (λ taken. Restores taken.1 taken.0.items text.items) }
{
    let mut text = text;
    let mut kept = Patch::new(alloc);
    let mut at = 0;
    'comments: while let Some(comment) = next_comment(&text, at, kind) {
        keep(text.as_mut_slice(), comment, &mut kept)?;
        at = comment.to;
    }
    Ok((text, KeptComments::new(kept)))
}
