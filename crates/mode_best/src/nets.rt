//! The best placements of nets, one after another.

ghost use Rattle.std.specs.Prelude.{◌≡◌, [], Some, false, true, IfOk};
ghost use Rattle.change_spef_laws.specs.Order.{IsOpen};
ghost use Rattle.vg_change.specs.Changes.{IsBehind, IsFresh, nothing};
ghost use Rattle.vg_design.specs.Designs.{net_names};
ghost use Rattle.vg_design.specs.Nets.{IsPosedNet};
ghost use Rattle.vg_slack.specs.Bests.{IsAnswer};
ghost use Rattle.vg_verdict.specs.Laws.{AreFitNames};
ghost use Rattle.vg_place.specs.Steps.{IsOneMore};
ghost use Rattle.mode_best.specs.Answers.{Asked, found_verdict};
ghost use Rattle.mode_best.specs.Steps.{AreBestJudged, AreCertified, JudgesOne};

use spef_wire::Refused;
use std::alloc::Global;
use vg_answer::AnswerKind;
use vg_design::{Design, PosedNet, posed_net};
use vg_num::Memory;
use vg_place::Judging;
use vg_scan::Name;
use vg_slack::{Best, Room};
use vg_verdict::{certified, net_names, search};

/// What is said of nets, and the pieces of the text of a certificate of the last one, where it is asked for and the net
/// is not refused.
#[derive(Drop)]
pub struct Certified<'a> {
    pub judging: Judging<'a>,
    pub cert: Option<Vec<Vec<u8>>>,
}

/// Says what was found for a net.
fn judge_found<'a>(
    alloc: Global,
    judging: Judging<'a>,
    design: &Design,
    name: &[u8],
    net: PosedNet,
    found: &Option<Best>,
) -> Result<Judging<'a>, Memory>
    requires design { judging.changes.design ≡ design.now }
    requires posed { IsPosedNet design.now name.now net }
    requires found { IsAnswer net.problem found.now }
    requires behind { IsBehind judging.changes net.ready.pinned.net.par.name }
    requires fresh { IsFresh judging.changes net.ready.pinned.net.id }
    ensures { IfOk result (IsOneMore judging.entry (found_verdict design.now name.now net found.now)) }
{
    match found {
        Some(best) => judging.with_placed(alloc, design, name, net, best, AnswerKind::Report),
        None => judging.with_none(name),
    }
}

/// Searches a net that has a problem, and says what was found.
fn judge_bare<'a>(
    alloc: Global,
    judging: Judging<'a>,
    room: &mut Room,
    design: &Design,
    name: &[u8],
    net: PosedNet,
) -> Result<Certified<'a>, Memory>
    requires design { judging.changes.design ≡ design.now }
    requires posed { IsPosedNet design.now name.now net }
    requires behind { IsBehind judging.changes net.ready.pinned.net.par.name }
    requires fresh { IsFresh judging.changes net.ready.pinned.net.id }
    ensures { IfOk result (JudgesOne design.now name.now false judging.entry) }
{
    let answer = search(alloc, room, &net.problem, false)?;
    let judging = judge_found(alloc, judging, design, name, net, &answer.found)?;
    Ok(Certified {
        judging,
        cert: None,
    })
}

/// The same, with a certificate of what was found.
fn judge_certified<'a>(
    alloc: Global,
    judging: Judging<'a>,
    room: &mut Room,
    design: &Design,
    name: &[u8],
    net: PosedNet,
) -> Result<Certified<'a>, Memory>
    requires design { judging.changes.design ≡ design.now }
    requires names { AreFitNames design.now }
    requires posed { IsPosedNet design.now name.now net }
    requires behind { IsBehind judging.changes net.ready.pinned.net.par.name }
    requires fresh { IsFresh judging.changes net.ready.pinned.net.id }
    ensures { IfOk result (JudgesOne design.now name.now true judging.entry) }
{
    let names = net_names(alloc, name, design.repeaters(), &net)?;
    let answer = search(alloc, room, &net.problem, true)?;
    let shown = certified(alloc, &net.problem, &names, answer)?;
    let judging = judge_found(alloc, judging, design, name, net, &shown.found)?;
    Ok(Certified {
        judging,
        cert: Some(shown.text),
    })
}

/// The same, with a certificate of what was found where one is asked for.
fn judge_posed<'a>(
    alloc: Global,
    judging: Judging<'a>,
    room: &mut Room,
    design: &Design,
    name: &[u8],
    net: PosedNet,
    is_certified: bool,
) -> Result<Certified<'a>, Memory>
    requires design { judging.changes.design ≡ design.now }
    requires names { AreFitNames design.now }
    requires posed { IsPosedNet design.now name.now net }
    requires behind { IsBehind judging.changes net.ready.pinned.net.par.name }
    requires fresh { IsFresh judging.changes net.ready.pinned.net.id }
    ensures { IfOk result (JudgesOne design.now name.now is_certified judging.entry) }
{
    if is_certified {
        return judge_certified(alloc, judging, room, design, name, net);
    }
    judge_bare(alloc, judging, room, design, name, net)
}

/// Says what is found for the net of this name, or why it is refused, with a certificate where one is asked for and the
/// net is not refused.
fn judge_net<'a>(
    alloc: Global,
    judging: Judging<'a>,
    room: &mut Room,
    design: &Design,
    name: &[u8],
    is_certified: bool,
) -> Result<Certified<'a>, Memory>
    requires design { judging.changes.design ≡ design.now }
    requires names { AreFitNames design.now }
    requires free { IsOpen judging.changes name.now }
    ensures { IfOk result (JudgesOne design.now name.now is_certified judging.entry) }
{
    let net = Name::from_bytes(alloc, name)?;
    match posed_net(alloc, design, &net) {
        Ok(posed) => judge_posed(alloc, judging, room, design, name, posed, is_certified),
        Err(Refused::Net(refusal)) => {
            let judging = judging.with_refused(alloc, name, &refusal)?;
            Ok(Certified {
                judging,
                cert: None,
            })
        }
        Err(Refused::Memory) => Err(Memory),
    }
}

/// Says what is found for the one net that is asked for, where nothing was said before, with a certificate where that
/// is asked for too. Answers `Memory` where there is no room.
pub fn judge_asked<'a>(
    alloc: Global,
    judging: Judging<'a>,
    room: &mut Room,
    design: &Design,
    name: &[u8],
    is_certified: bool,
) -> Result<Certified<'a>, Memory>
    requires none { judging.changes ≡ nothing design.now judging.changes.prefix }
    requires names { AreFitNames design.now }
    requires empty { AreBestJudged design.now judging.changes.prefix [] judging }
    ensures { (asked : Asked) → asked.net ≡ Some name.now → asked.certified ≡ is_certified
        → IfOk result (AreCertified design.now judging.entry.changes.prefix asked) }
{
    judge_net(alloc, judging, room, design, name, is_certified)
}

/// Says what is found for all nets of the parasitics, in the order of the file, where nothing was said before. Answers
/// `Memory` where there is no room.
pub fn judge_all<'a>(
    alloc: Global,
    judging: Judging<'a>,
    room: &mut Room,
    design: &Design,
) -> Result<Judging<'a>, Memory>
    requires none { judging.changes ≡ nothing design.now judging.changes.prefix }
    requires names { AreFitNames design.now }
    requires empty { AreBestJudged design.now judging.changes.prefix [] judging }
    ensures { IfOk result (AreBestJudged design.now judging.entry.changes.prefix (net_names design.now.spef)) }
{
    let mut judging = judging;
    'net: for at in 0..design.net_count() {
        let name = design.net_name(at);
        let judged = judge_net(alloc, judging, room, design, name, false)?;
        judging = judged.judging;
    }
    Ok(judging)
}
