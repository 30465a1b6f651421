//! What is said of the best choice of cells and widths of a net, as text.

ghost use Rattle.std.specs.Prelude.{IfErr, IfOk};
ghost use Rattle.wire_widths.specs.Fits.{Fits};
ghost use Rattle.vg_answer.specs.Answers.{AnswersBy, NoneTaken, texts_in};
ghost use Rattle.vg_answer.specs.Faults.{DenotesWidths};
ghost use Rattle.mode_width.specs.Answers.{IsPosedIn, IsWidthAnswer, IsWidthFault};
ghost use Rattle.mode_width.specs.Steps.{IsNoWidths, SaysWidths};

use crate::print::print_wide;
use spef_wire::{Refusal, Refused};
use std::alloc::Global;
use vg_answer::{
    Answer, AnswerKind, DesignTexts, Input, InputText, NoAnswer, answer_text, design_in, refuse,
};
use vg_design::{Design, NetProblem, posed_net};
use vg_num::Memory;
use vg_report::{print_none, width_fault};
use vg_scan::Name;
use vg_width::{WidthKind, Widths, fits, read_widths, wide_best};

/// The widths of a text, or the line of its first fault.
fn widths_in(alloc: Global, bytes: &[u8]) -> Result<Widths, NoAnswer>
    ensures widths { IfOk result (λ widths. DenotesWidths bytes.now widths.rows) }
    ensures fault { IfErr result (IsNoWidths bytes.now) }
{
    match read_widths(alloc, bytes) {
        Ok(widths) => Ok(widths),
        Err(fault) => match fault.kind {
            WidthKind::Memory => Err(NoAnswer::Memory),
            _ => Err(NoAnswer::Faulty(Input::Widths, width_fault(alloc, fault)?)),
        },
    }
}

/// What is said of a net with this problem, whose loads stay within their limit with these widths: its best choice of
/// cells and widths, or that none is good.
fn width_found(
    alloc: Global,
    design: &Design,
    widths: &Widths,
    name: &[u8],
    net: &NetProblem,
) -> Result<Answer, Memory>
    requires posed { IsPosedIn design.now name.now net.now }
    requires fits { Fits net.now.problem widths.now.rows }
    ensures { IfOk result (SaysWidths design.now widths.now.rows name.now) }
{
    let mut text = Vec::new(alloc);
    let Some(best) = wide_best(alloc, &net.problem, widths)? else {
        print_none(name, &mut text)?;
        return Ok(answer_text(alloc, AnswerKind::NoneGood, text));
    };
    print_wide(name, design.repeaters(), net, &best, &mut text)?;
    Ok(answer_text(alloc, AnswerKind::Report, text))
}

/// The same of every net with a problem: loads that may be too large with these widths refuse it.
fn width_posed(
    alloc: Global,
    design: &Design,
    widths: &Widths,
    name: &[u8],
    net: &NetProblem,
) -> Result<Answer, Memory>
    requires { IsPosedIn design.now name.now net.now }
    ensures { IfOk result (SaysWidths design.now widths.now.rows name.now) }
{
    if !fits(&net.problem, widths) {
        return refuse(alloc, name, &Refusal::TooLarge);
    }
    width_found(alloc, design, widths, name, net)
}

/// What is said of the net of this name with these widths.
fn width_net(alloc: Global, design: &Design, widths: &Widths, name: &[u8]) -> Result<Answer, Memory>
    ensures { IfOk result (SaysWidths design.now widths.now.rows name.now) }
{
    let net = Name::from_bytes(alloc, name)?;
    match posed_net(alloc, design, &net) {
        Ok(posed) => width_posed(alloc, design, widths, name, &posed.into_problem()),
        Err(Refused::Net(refusal)) => refuse(alloc, name, &refusal),
        Err(Refused::Memory) => Err(Memory),
    }
}

/// What is said of the net of this name in the design of four files, whose wires may have the widths of a fifth: the
/// best choice of cells and of one width for each wire, with its slack (zs) and cost (thousandths), or that no choice
/// is good, or why the net is refused; or the first fault of the files, the widths' last. Answers `Memory` where there
/// is no room.
pub fn width_for(
    alloc: Global,
    texts: DesignTexts,
    widths: InputText,
    name: &[u8],
) -> Result<Answer, NoAnswer>
    ensures { AnswersBy (IsWidthAnswer (texts_in texts) widths.bytes.items name.now)
        (IsWidthFault (texts_in texts) widths.bytes.items) NoneTaken result }
{
    let design = design_in(alloc, texts)?;
    let widths = widths_in(alloc, &widths.bytes)?;
    Ok(width_net(alloc, &design, &widths, name)?)
}
