//! The wire delays of a net, as text.

ghost use Rattle.vg_answer.specs.Answers.{AnswersBy, NoneTaken};
ghost use Rattle.mode_wire.specs.Answers.{IsWireAnswer, IsWireFault};

use spef_file::SpefText;
use spef_wire::{Refused, wire_net};
use std::alloc::Global;
use vg_answer::{Answer, AnswerKind, InputText, NoAnswer, answer_text, index_of, refuse};
use vg_report::report_wire;
use vg_scan::Name;

/// What is said of the wire delays of the net of this name, of a text without comments.
fn wire_in(alloc: Global, file: &SpefText, name: &[u8]) -> Result<Answer, NoAnswer>
    ensures { AnswersBy (IsWireAnswer file.now name.now) (IsWireFault file.now) NoneTaken result }
{
    let index = index_of(alloc, file)?;
    let net = Name::from_bytes(alloc, name)?;
    match wire_net(alloc, file, &index, &net) {
        Ok(wire) => {
            let text = report_wire(alloc, name, &wire)?;
            Ok(answer_text(alloc, AnswerKind::Report, text))
        }
        Err(Refused::Net(refusal)) => Ok(refuse(alloc, name, &refusal)?),
        Err(Refused::Memory) => Err(NoAnswer::Memory),
    }
}

/// What is said of the wire delays of the net of this name in a file of parasitics: its total capacitance and the delay
/// from its driver to each sink (Elmore 1948), or why it is refused; or the fault of the file. Answers `Memory` where
/// there is no room.
pub fn wire_for(alloc: Global, spef: InputText, name: &[u8]) -> Result<Answer, NoAnswer>
    ensures { AnswersBy (IsWireAnswer spef.bytes.items name.now) (IsWireFault spef.bytes.items) NoneTaken result }
{
    let text = SpefText::new(spef.bytes);
    wire_in(alloc, &text, name)
}
