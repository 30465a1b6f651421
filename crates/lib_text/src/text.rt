//! The text of a library as its readers take it.

ghost use Rattle.std.specs.Prelude.{◌≡◌, length, IfOk};
ghost use Rattle.vg_scan.specs.Comments.{without_comments};
ghost use Rattle.vg_scan.specs.declared.comments.Comments.TheVariants.{Liberty};
ghost use Rattle.lib_text.specs.Joined.{joined};

use crate::join::join_lines;
use std::alloc::Global;
use vg_num::Memory;
use vg_scan::{Comments, skip_comments};

/// A copy of a library's text whose comments and continued line ends are blank. A byte keeps its place. Answers
/// `Memory` where there is no room.
pub fn plain_text(alloc: Global, bytes: &[u8]) -> Result<Vec<u8>, Memory>
    ensures text { IfOk result (λ text. text.items ≡ joined (without_comments Liberty bytes.now)) }
    ensures length { IfOk result (λ text. length text.items ≡ length bytes.now) }
{
    let mut text = skip_comments(alloc, bytes, Comments::Liberty)?;
    join_lines(text.as_mut_slice());
    Ok(text)
}
