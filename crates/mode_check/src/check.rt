//! What is said of a certificate, as text.

ghost use Rattle.std.specs.Prelude.{◌≤◌, ◌^◌, length, IfOk};
ghost use Rattle.vg_design.specs.Nets.{IsPosedNet};
ghost use Rattle.vg_verdict.specs.Laws.{AreFitNames};
ghost use Rattle.vg_answer.specs.Answers.{AnswersBy, NoneTaken, texts_in};
ghost use Rattle.vg_answer.specs.Faults.{IsDesignFault};
ghost use Rattle.mode_check.specs.Answers.{IsCheckAnswer};
ghost use Rattle.mode_check.specs.Steps.{ChecksNet};

use spef_wire::Refused;
use std::alloc::Global;
use vg_answer::{
    Answer, AnswerKind, DesignTexts, InputText, NoAnswer, answer_text, design_in, refuse,
};
use vg_design::{Design, PosedNet, posed_net};
use vg_num::Memory;
use vg_scan::Name;
use vg_verdict::{judge_text, net_names};

/// What is said of a text as a certificate of a posed net.
fn check_posed(
    alloc: Global,
    design: &Design,
    name: &[u8],
    net: &PosedNet,
    cert: &[u8],
) -> Result<Answer, Memory>
    requires short { length cert.now ≤ 2 ^ 28 }
    requires names { AreFitNames design.now }
    requires posed { IsPosedNet design.now name.now net.now }
    ensures { IfOk result (ChecksNet design.now name.now cert.now) }
{
    let names = net_names(alloc, name, design.repeaters(), net)?;
    let mut text = Vec::new(alloc);
    let valid = judge_text(alloc, &net.problem, &names, cert, &mut text)?;
    let kind = if valid {
        AnswerKind::Report
    } else {
        AnswerKind::Invalid
    };
    Ok(answer_text(alloc, kind, text))
}

/// What is said of a text as a certificate of the net of this name.
fn check_net(alloc: Global, design: &Design, name: &[u8], cert: &[u8]) -> Result<Answer, Memory>
    requires short { length cert.now ≤ 2 ^ 28 }
    requires names { AreFitNames design.now }
    ensures { IfOk result (ChecksNet design.now name.now cert.now) }
{
    let net = Name::from_bytes(alloc, name)?;
    match posed_net(alloc, design, &net) {
        Ok(posed) => check_posed(alloc, design, name, &posed, cert),
        Err(Refused::Net(refusal)) => refuse(alloc, name, &refusal),
        Err(Refused::Memory) => Err(Memory),
    }
}

/// What is said of a certificate of the net of this name in the design of four files: that it is valid, with its slack,
/// or the first thing that is wrong with it, or why the net is refused; or the first fault of the four files. Answers
/// `Memory` where there is no room.
pub fn check_for(
    alloc: Global,
    texts: DesignTexts,
    cert: InputText,
    name: &[u8],
) -> Result<Answer, NoAnswer>
    ensures { AnswersBy (IsCheckAnswer (texts_in texts) cert.bytes.items name.now)
        (IsDesignFault (texts_in texts)) NoneTaken result }
{
    let design = design_in(alloc, texts)?;
    Ok(check_net(alloc, &design, name, &cert.bytes)?)
}
