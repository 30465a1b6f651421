//! The frontiers of cost and slack of nets, as text.

ghost use Rattle.std.specs.Prelude.{◌≡◌, [], IfOk};
ghost use Rattle.vg_design.specs.Designs.{net_names};
ghost use Rattle.vg_answer.specs.Answers.{AnswersBy, NoneTaken, texts_in};
ghost use Rattle.vg_answer.specs.Faults.{IsDesignFault};
ghost use Rattle.vg_answer.specs.Nets.{named};
ghost use Rattle.vg_answer.specs.Verdicts.{AreSaid, SaysOfNet};
ghost use Rattle.mode_frontier.specs.Answers.{IsFrontAnswer, IsFrontSaid, IsPosedIn};
ghost use Rattle.mode_frontier.specs.Steps.{FrontsNets};

use sol_arena::Arena;
use spef_wire::Refused;
use std::alloc::Global;
use vg_answer::{Answer, AnswerKind, DesignTexts, NoAnswer, answer_text, design_in};
use vg_design::{Design, NetProblem, posed_net};
use vg_front::frontier_in;
use vg_num::Memory;
use vg_report::{print_none, print_refusal, report_front};
use vg_scan::Name;

/// Appends the frontier of a net with this problem within a cap of the cost (thousandths), if there is one, or that no
/// good placement is within it. Answers its kind. The search has its solutions in the arena, which afterwards is as
/// before.
fn front_posed(
    alloc: Global,
    arena: &mut Arena,
    design: &Design,
    name: &[u8],
    net: &NetProblem,
    cap: Option<u64>,
    to: &mut Vec<u8>,
) -> Result<AnswerKind, Memory>
    requires { IsPosedIn design.now name.now net.now }
    ensures { IfOk result (λ kind. SaysOfNet (IsFrontSaid design.now cap name.now) kind to.old.items to.new.items) }
{
    let points = frontier_in(alloc, &net.problem, cap, arena)?;
    if points.is_empty() {
        print_none(name, to)?;
        return Ok(AnswerKind::NoneGood);
    }
    report_front(name, design.repeaters(), net, &points, to)?;
    Ok(AnswerKind::Report)
}

/// Appends what is said of the frontier of the net of this name in a design. Answers its kind.
fn front_net(
    alloc: Global,
    arena: &mut Arena,
    design: &Design,
    name: &[u8],
    cap: Option<u64>,
    to: &mut Vec<u8>,
) -> Result<AnswerKind, Memory>
    ensures { IfOk result (λ kind. SaysOfNet (IsFrontSaid design.now cap name.now) kind to.old.items to.new.items) }
{
    let net = Name::from_bytes(alloc, name)?;
    match posed_net(alloc, design, &net) {
        Ok(posed) => front_posed(alloc, arena, design, name, &posed.into_problem(), cap, to),
        Err(Refused::Net(refusal)) => {
            print_refusal(alloc, name, &refusal, to)?;
            Ok(AnswerKind::Refusal)
        }
        Err(Refused::Memory) => Err(Memory),
    }
}

/// The same of all nets of the parasitics, in the order of the file.
fn front_all(
    alloc: Global,
    arena: &mut Arena,
    design: &Design,
    cap: Option<u64>,
    to: &mut Vec<u8>,
) -> Result<AnswerKind, Memory>
    requires { to.old.items ≡ [] }
    ensures { IfOk result (λ kind. AreSaid (IsFrontSaid design.now cap) (net_names design.now.spef) kind to.new.items) }
{
    let mut kind = AnswerKind::Report;
    'net: for at in 0..design.net_count() {
        let name = design.net_name(at);
        kind = kind.worse(front_net(alloc, arena, design, name, cap, to)?);
    }
    Ok(kind)
}

/// What is said of the frontiers of the nets that are asked for.
fn front_nets(
    alloc: Global,
    design: &Design,
    net: Option<&[u8]>,
    cap: Option<u64>,
) -> Result<Answer, Memory>
    ensures { IfOk result (FrontsNets design.now (named net.entry) cap) }
{
    let mut arena = Arena::new(alloc);
    let mut text = Vec::new(alloc);
    let kind = match net {
        Some(name) => front_net(alloc, &mut arena, design, name, cap, &mut text)?,
        None => front_all(alloc, &mut arena, design, cap, &mut text)?,
    };
    Ok(answer_text(alloc, kind, text))
}

/// What is said of the frontier of a net, or of those of all nets, in the design of four files: the points whose costs
/// (thousandths) are at most the cap, if there is one; or the first fault of the files. Answers `Memory` where there is
/// no room.
pub fn front_for(
    alloc: Global,
    texts: DesignTexts,
    net: Option<&[u8]>,
    cap: Option<u64>,
) -> Result<Answer, NoAnswer>
    ensures { AnswersBy (IsFrontAnswer (texts_in texts) (named net.entry) cap)
        (IsDesignFault (texts_in texts)) NoneTaken result }
{
    let design = design_in(alloc, texts)?;
    Ok(front_nets(alloc, &design, net, cap)?)
}
