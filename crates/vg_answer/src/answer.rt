//! What is said of the nets that are asked for.

ghost use Rattle.std.specs.Prelude.{◌≡◌, [], IfOk};
ghost use Rattle.vg_answer.specs.Answers.{IsAnswerWith, IsRefusedWith};
ghost use Rattle.vg_answer.specs.declared.answer.NoAnswer.TheVariants.{Memory as out_of_memory};
ghost use Rattle.vg_report.specs.Reports.{refusal_line};

use crate::input::Input;
use crate::kind::AnswerKind;
use crate::new_text::NewText;
use crate::output::Output;
use spef_wire::Refusal;
use std::alloc::Global;
use vg_num::{Memory, Row};
use vg_report::print_refusal;
use vg_scan::Name;

/// A file that is written.
#[derive(Drop)]
pub struct NewFile {
    pub output: Output,
    pub text: NewText,
}

/// What is said of the nets that are asked for.
#[derive(Drop)]
pub struct Answer {
    pub kind: AnswerKind,
    /// The text that is printed.
    pub text: Vec<u8>,
    /// The files that are written, in the order of writing.
    pub files: Vec<NewFile>,
}

/// Why nothing is said of them.
#[derive(Drop)]
pub enum NoAnswer {
    /// An input has a fault: its kind and its line, as text.
    Faulty(Input, Row<u8>),
    /// A name of the design begins with the prefix.
    Taken(Name),
    /// Out of memory.
    Memory,
}

impl From<Memory> for NoAnswer {
    ghost from_gives = { λ _ fault. fault ≡ out_of_memory };

    fn from(_: Memory) -> Self {
        NoAnswer::Memory
    }
}

/// The answer of this kind that prints this text and writes no file.
pub fn answer_text(alloc: Global, kind: AnswerKind, text: Vec<u8>) -> Answer
    ensures { IsAnswerWith kind text.items result }
{
    Answer {
        kind,
        text,
        files: Vec::new(alloc),
    }
}

/// The answer that refuses a net. Answers `Memory` where there is no room for its text.
pub fn refuse(alloc: Global, name: &[u8], refusal: &Refusal) -> Result<Answer, Memory>
    ensures { IfOk result (IsRefusedWith (refusal_line name.now refusal.now)) }
{
    let mut text = Vec::new(alloc);
    print_refusal(alloc, name, refusal, &mut text)?;
    Ok(answer_text(alloc, AnswerKind::Refusal, text))
}
