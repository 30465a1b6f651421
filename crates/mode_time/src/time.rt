//! The slacks of nets, as text.

ghost use Rattle.std.specs.Prelude.{◌≡◌, [], None, IfOk};
ghost use Rattle.vg_answer.specs.Answers.{AnswersBy, NoneTaken, texts_in};
ghost use Rattle.vg_answer.specs.Faults.{IsDesignFault};
ghost use Rattle.vg_answer.specs.Nets.{named};
ghost use Rattle.vg_answer.specs.Verdicts.{AreSaid, SaysOfNet};
ghost use Rattle.mode_time.specs.Answers.{IsTimeAnswer, IsTimeSaid, nets_to_time};
ghost use Rattle.mode_time.specs.Steps.{TimesNets};

use spef_wire::Refused;
use std::alloc::Global;
use vg_answer::{Answer, AnswerKind, DesignTexts, NoAnswer, answer_text, design_in};
use vg_design::Design;
use vg_num::Memory;
use vg_report::{print_refusal, report_timed};
use vg_retime::retime;
use vg_scan::Name;

/// Appends what is said of the slack of the net of this name in a design, through the cells that were put in, whose
/// names begin with the prefix. Answers its kind.
fn time_net(
    alloc: Global,
    design: &Design,
    name: &[u8],
    prefix: &[u8],
    to: &mut Vec<u8>,
) -> Result<AnswerKind, Memory>
    ensures { IfOk result (λ kind.
        SaysOfNet (IsTimeSaid design.now prefix.now name.now) kind to.old.items to.new.items) }
{
    let net = Name::from_bytes(alloc, name)?;
    match retime(alloc, design, &net, prefix) {
        Ok(timed) => {
            report_timed(alloc, name, &timed, to)?;
            Ok(AnswerKind::Report)
        }
        Err(Refused::Net(refusal)) => {
            print_refusal(alloc, name, &refusal, to)?;
            Ok(AnswerKind::Refusal)
        }
        Err(Refused::Memory) => Err(Memory),
    }
}

/// The same of all nets of the parasitics, in the order of the file, but those whose names begin with the prefix.
fn time_all(
    alloc: Global,
    design: &Design,
    prefix: &[u8],
    to: &mut Vec<u8>,
) -> Result<AnswerKind, Memory>
    requires { to.old.items ≡ [] }
    ensures { IfOk result (λ kind.
        AreSaid (IsTimeSaid design.now prefix.now) (nets_to_time design.now prefix.now None) kind to.new.items) }
{
    let mut kind = AnswerKind::Report;
    'net: for at in 0..design.net_count() {
        let name = design.net_name(at);
        if !name.starts_with(prefix) {
            kind = kind.worse(time_net(alloc, design, name, prefix, to)?);
        }
    }
    Ok(kind)
}

/// What is said of the slacks of the nets that are asked for.
fn time_nets(
    alloc: Global,
    design: &Design,
    net: Option<&[u8]>,
    prefix: &[u8],
) -> Result<Answer, Memory>
    ensures { IfOk result (TimesNets design.now (named net.entry) prefix.now) }
{
    let mut text = Vec::new(alloc);
    let kind = match net {
        Some(name) => time_net(alloc, design, name, prefix, &mut text)?,
        None => time_all(alloc, design, prefix, &mut text)?,
    };
    Ok(answer_text(alloc, kind, text))
}

/// What is said of the slack of a net, or of those of all nets, in the design of four files, through the cells that
/// were put in, whose names begin with the prefix; or the first fault of the files. Answers `Memory` where there is no
/// room.
pub fn time_for(
    alloc: Global,
    texts: DesignTexts,
    net: Option<&[u8]>,
    prefix: &[u8],
) -> Result<Answer, NoAnswer>
    ensures { AnswersBy (IsTimeAnswer (texts_in texts) (named net.entry) prefix.now)
        (IsDesignFault (texts_in texts)) NoneTaken result }
{
    let design = design_in(alloc, texts)?;
    Ok(time_nets(alloc, &design, net, prefix)?)
}
