//! The best placements of repeaters on the nets of a design, as text, and the files that are written.

ghost use Rattle.std.specs.Prelude.{◌≡◌, ℕ, List, length, IfOk};
ghost use Rattle.std.specs.List.{All, AllPass};
ghost use Rattle.ver_file.specs.Modules.{Denotes as DenotesModule};
ghost use Rattle.vg_change.specs.Changes.{nothing};
ghost use Rattle.vg_patch.specs.Edits.{Rise};
ghost use Rattle.vg_scan.specs.Printed.{is_solid};
ghost use Rattle.vg_split.specs.Conditions.{IsNamed};
ghost use Rattle.vg_verdict.specs.Laws.{AreFitNames};
ghost use Rattle.vg_answer.specs.Answers.{AnswersBy, said_by, texts_in};
ghost use Rattle.vg_answer.specs.Faults.{IsDesignFault};
ghost use Rattle.vg_answer.specs.Nets.{named};
ghost use Rattle.vg_place.specs.Placings.{IsTaken};
ghost use Rattle.mode_best.specs.Answers.{Asked, IsBestAnswer};
ghost use Rattle.mode_best.specs.Steps.{AreCertified, IsWithCert, Judges, cert_in, finished_with};

use crate::nets::{Certified, judge_all, judge_asked};
use spef_file::SpefText;
use std::alloc::Global;
use vg_answer::{Answer, DesignTexts, NewFile, NewText, NoAnswer, Output, design_of};
use vg_change::Changes;
use vg_design::Design;
use vg_num::Memory;
use vg_patch::take_comments;
use vg_place::{Judged, Judging};
use vg_scan::Comments;
use vg_slack::Room;

/// What is said in mode `best`, what is replaced in the texts of the design, and the pieces of the certificate's text,
/// where there is one.
#[derive(Drop)]
pub struct Finished {
    pub judged: Judged,
    pub cert: Option<Vec<Vec<u8>>>,
}

/// What is said of the nets of a design that are asked for, where nothing has changed yet.
fn judge_nets<'a>(
    alloc: Global,
    changes: Changes<'a>,
    design: &Design,
    net: Option<&[u8]>,
    is_certified: bool,
) -> Result<Certified<'a>, Memory>
    requires none { changes ≡ nothing design.now changes.prefix }
    requires names { AreFitNames design.now }
    ensures { (asked : Asked) → asked.net ≡ named net.entry → asked.certified ≡ is_certified
        → IfOk result (AreCertified design.now changes.entry.prefix asked) }
{
    let mut room = Room::new(alloc);
    let judging = Judging::new(alloc, changes);
    match net {
        Some(name) => judge_asked(alloc, judging, &mut room, design, name, is_certified),
        None => {
            let judging = judge_all(alloc, judging, &mut room, design)?;
            Ok(Certified {
                judging,
                cert: None,
            })
        }
    }
}

/// What is said of the best placements of the nets of a design that are asked for.
fn judge(
    alloc: Global,
    design: &Design,
    net: Option<&[u8]>,
    prefix: &[u8],
    is_certified: bool,
) -> Result<Finished, NoAnswer>
    requires prefix { AllPass is_solid prefix.now }
    requires repeaters { All IsNamed design.now.library.repeaters }
    requires names { AreFitNames design.now }
    requires read { (verilog : List ℕ) × DenotesModule verilog design.now.netlist }
    ensures { Judges design.now
        (record { net = named net.entry; prefix = prefix.now; certified = is_certified }) result }
{
    match Changes::new(alloc, design, prefix) {
        Ok(changes) => {
            let all = judge_nets(alloc, changes, design, net, is_certified)?;
            let judged = all.judging.finish(alloc)?;
            Ok(Finished {
                judged,
                cert: all.cert,
            })
        }
        Err(taken) => Err(NoAnswer::Taken(taken.to_name(alloc)?)),
    }
}

/// The answer, with the certificate as its last file, where there is one. Answers `Memory` where there is no room for
/// it in the list.
fn with_cert(mut answer: Answer, cert: Option<Vec<Vec<u8>>>) -> Result<Answer, Memory>
    ensures { IfOk result (IsWithCert (cert_in cert) answer) }
{
    if let Some(text) = cert {
        answer.files.push(NewFile {
            output: Output::Certificate,
            text: NewText::Made(text),
        })?;
    }
    Ok(answer)
}

impl Finished {
    /// The answer, with the files that are written: these texts of the design, with what is replaced in them, and the
    /// certificate. Answers `Memory` where there is no room for their list.
    fn into_answer(self, alloc: Global, verilog: Vec<u8>, spef: Vec<u8>) -> Result<Answer, Memory>
        requires verilog { Rise 0 (length verilog.items) self.judged.patches.verilog }
        requires spef { Rise 0 (length spef.items) self.judged.patches.spef }
        ensures kind { IfOk result (λ answer. answer.kind ≡ self.judged.kind) }
        ensures said { IfOk result (λ answer. said_by answer
            ≡ finished_with self (record { verilog = verilog.items; spef = spef.items })) }
    {
        let Finished { judged, cert } = self;
        let answer = judged.into_answer(alloc, verilog, spef)?;
        with_cert(answer, cert)
    }
}

/// What is said of the best placement of a net, or of those of all nets, in the design of four files, with the netlist
/// and the parasitics in which their cells are put, whose names begin with the prefix, and, of one net, a certificate
/// where one is asked for; or the first fault of the files, or a name of the design that begins with the prefix.
/// Answers `Memory` where there is no room.
///
/// The comments of the parasitics are taken out of their text and put back in it, so that the files that are written
/// need no copy of it.
pub fn best_for(
    alloc: Global,
    texts: DesignTexts,
    net: Option<&[u8]>,
    prefix: &[u8],
    is_certified: bool,
) -> Result<Answer, NoAnswer>
    requires prefix { AllPass is_solid prefix.now }
    ensures { AnswersBy
        (IsBestAnswer (texts_in texts)
        (record { net = named net.entry; prefix = prefix.now; certified = is_certified }))
        (IsDesignFault (texts_in texts)) (IsTaken (texts_in texts) prefix.now) result }
{
    let DesignTexts {
        spef,
        lib,
        verilog,
        cons,
    } = texts;
    let (clear, comments) = take_comments(alloc, spef.bytes, Comments::Spef)?;
    let text = SpefText::from_clear(clear);
    let design = design_of(alloc, text, &lib.bytes, &verilog.bytes, &cons.bytes)?;
    let judged = judge(alloc, &design, net, prefix, is_certified)?;
    let mut spef = design.into_text().into_bytes();
    comments.restore(&mut spef);
    Ok(judged.into_answer(alloc, verilog.bytes, spef)?)
}
