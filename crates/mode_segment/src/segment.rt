//! The parasitics with the resistors of nets cut into parts, and what is said of these nets, as text.

ghost use Rattle.std.specs.Prelude.{◌≡◌, ◌≤◌, ◌<◌, length, IfOk};
ghost use Rattle.vg_answer.specs.Answers.{AnswersBy, NoneTaken};
ghost use Rattle.vg_answer.specs.Nets.{named};
ghost use Rattle.vg_patch.specs.Edits.{Rise};
ghost use Rattle.mode_segment.specs.Answers.{IsSegmentAnswer, IsSegmentFault};
ghost use Rattle.mode_segment.specs.Steps.{IsAnswerWith};

use crate::cut::{Cutting, cut_nets};
use spef_file::SpefText;
use std::alloc::Global;
use vg_answer::{Answer, InputText, NewFile, NewText, NoAnswer, Output, index_of};
use vg_num::Memory;
use vg_patch::{Patched, take_comments};
use vg_scan::Comments;

impl Cutting {
    /// The answer, which writes this text with what is replaced in it. Answers `Memory` where there is no room for the
    /// list of files.
    fn into_answer(self, alloc: Global, spef: Vec<u8>) -> Result<Answer, Memory>
        requires { Rise 0 (length spef.items) self.patch }
        ensures { IfOk result (IsAnswerWith self spef.items) }
    {
        let Cutting { kind, text, patch } = self;
        let mut files = Vec::new(alloc);
        files.push(NewFile {
            output: Output::Parasitics,
            text: NewText::Patched(Patched::new(spef, patch)),
        })?;
        Ok(Answer { kind, text, files })
    }
}

/// Cuts each resistor of a net of a file of parasitics, or of all its nets, into so many parts (Alpert and Devgan, DAC
/// 1997): says how many nodes each net has then, or why it is refused, and writes the file with the cut nets; or tells
/// the fault of the file. Answers `Memory` where there is no room.
///
/// The comments of the file are taken out of its text and put back in it, so that what is written needs no copy of it.
pub fn segment_for(
    alloc: Global,
    spef: InputText,
    net: Option<&[u8]>,
    parts: u32,
) -> Result<Answer, NoAnswer>
    requires some { 0 < parts }
    requires few { parts ≤ 64 }
    ensures { AnswersBy (IsSegmentAnswer spef.bytes.items (named net.entry) parts) (IsSegmentFault spef.bytes.items)
        NoneTaken result }
{
    let (clear, comments) = take_comments(alloc, spef.bytes, Comments::Spef)?;
    let text = SpefText::from_clear(clear);
    let index = index_of(alloc, &text)?;
    let cutting = cut_nets(alloc, &text, &index, net, parts)?;
    let mut bytes = text.into_bytes();
    comments.restore(&mut bytes);
    Ok(cutting.into_answer(alloc, bytes)?)
}
