//! The timing of a design, as text.

ghost use Rattle.std.specs.Prelude.{IfOk};
ghost use Rattle.vg_answer.specs.Answers.{AnswersBy, NoneTaken, texts_in};
ghost use Rattle.vg_answer.specs.Faults.{IsDesignFault};
ghost use Rattle.mode_sta.specs.Answers.{IsStaAnswer};
ghost use Rattle.mode_sta.specs.Steps.{SaysTiming, TellsFault};

use crate::lines::{print_cycle, print_no_path, report_sta};
use std::alloc::Global;
use vg_answer::{Answer, AnswerKind, DesignTexts, NoAnswer, answer_text, design_in, refuse};
use vg_design::Design;
use vg_num::Memory;
use vg_sta::{StaFault, sta};

/// What is said of a design that is not timed, where there is a line for it.
fn say_fault(alloc: Global, fault: &StaFault) -> Result<Answer, Memory>
    ensures { IfOk result (TellsFault fault.now) }
{
    let mut text = Vec::new(alloc);
    match fault {
        StaFault::Net(name, refusal) => return refuse(alloc, name.as_bytes(), refusal),
        StaFault::Cycle(name) => print_cycle(name.as_bytes(), &mut text)?,
        StaFault::NoPath => print_no_path(&mut text)?,
        StaFault::Memory => return Err(Memory),
    }
    Ok(answer_text(alloc, AnswerKind::Refusal, text))
}

/// What is said of the timing of a design.
fn say(alloc: Global, design: &Design) -> Result<Answer, Memory>
    ensures { IfOk result (SaysTiming design.now) }
{
    match sta(alloc, design) {
        Ok(found) => {
            let mut text = Vec::new(alloc);
            report_sta(&found, &mut text)?;
            Ok(answer_text(alloc, AnswerKind::Report, text))
        }
        Err(fault) => say_fault(alloc, &fault),
    }
}

/// What is said of the timing of the design of four files: the least slack of all its paths, the first endpoint of a
/// path with it, and the least slack through each net; or the first refused net, or that nets form a cycle, or that
/// there is no net; or the first fault of the files. Answers `Memory` where there is no room.
pub fn sta_for(alloc: Global, texts: DesignTexts) -> Result<Answer, NoAnswer>
    ensures { AnswersBy (IsStaAnswer (texts_in texts)) (IsDesignFault (texts_in texts)) NoneTaken result }
{
    let design = design_in(alloc, texts)?;
    Ok(say(alloc, &design)?)
}
