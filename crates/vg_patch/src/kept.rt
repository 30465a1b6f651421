//! Comments that were taken out of a text.

ghost use Rattle.std.specs.Prelude.{◌≡◌, ◌+◌, ◌++◌, ◌≤◌, length, take, drop};
ghost use Rattle.vg_patch.specs.Kept.{FitIn};
ghost use Rattle.vg_patch.specs.Edits.{patched};

use crate::Patch;
use std::marker::Model;
use vg_scan::Span;

/// Comments that were taken out of a text, and where they stood. Contracts see them as edits of the text without
/// comments.
#[derive(Drop)]
pub struct KeptComments {
    comments: Patch,
}

impl Model for KeptComments {
    ghost use Rattle.std.specs.Prelude.{List};
    ghost use Rattle.vg_patch.specs.Edits.{Edit};

    ghost Value = { List Edit };

    ghost view = { λ kept. kept.comments };
}

/// Puts a comment back in its place.
fn put_back(text: &mut [u8], place: Span, comment: &[u8])
    requires within { place.to ≤ length text.old }
    requires long { place.from + length comment.now ≡ place.to }
    ensures { text.new ≡ take place.from text.old ++ (comment.now ++ drop place.to text.old) }
{
    text[place.from..place.to].copy_from_slice(comment);
}

impl KeptComments {
    /// The comments of a patch, each at its place.
    pub(crate) fn new(comments: Patch) -> KeptComments
        ensures { result ≡ comments }
    {
        KeptComments { comments }
    }

    /// Puts the comments back in place.
    pub fn restore(&self, text: &mut [u8])
        requires { FitIn self.now text.old }
        ensures { text.new ≡ patched text.old self.now }
    {
        'comments: for number in 0..self.comments.len() {
            let (place, comment) = self.comments.part(number);
            put_back(text, place, comment);
        }
    }
}
