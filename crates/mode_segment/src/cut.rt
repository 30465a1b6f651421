//! What is said of nets whose resistors are cut, and what is replaced in the parasitics.

ghost use Rattle.std.specs.Prelude.{◌≡◌, ◌++◌, ◌≤◌, ◌<◌, [], OnOk, IfOk};
ghost use Rattle.spef_file.specs.Indexes.{IsIndexOf};
ghost use Rattle.vg_answer.specs.Nets.{named};
ghost use Rattle.mode_segment.specs.Lines.{segment_line};
ghost use Rattle.mode_segment.specs.Steps.{AreAllCut, IsBefore, IsCutNext};

use spef_file::{SpefIndex, SpefText};
use spef_net::ParNet;
use spef_wire::Refused;
use std::alloc::Global;
use vg_answer::AnswerKind;
use vg_num::{Memory, print_signed};
use vg_patch::Patch;
use vg_report::{print_refusal, push};
use vg_scan::Name;
use vg_segment::{cut_count, fit_net, segment_text};

/// What is said of nets, and what is replaced in the text of the parasitics.
#[derive(Drop)]
pub struct Cutting {
    pub kind: AnswerKind,
    pub text: Vec<u8>,
    pub patch: Patch,
}

/// Appends `net NAME parts M nodes K`.
fn print_cut(name: &[u8], parts: u32, nodes: usize, to: &mut Vec<u8>) -> Result<(), Memory>
    ensures { OnOk result (to.new.items ≡ to.old.items ++ segment_line name.now parts nodes) }
{
    push(b"net ", to)?;
    push(name, to)?;
    push(b" parts ", to)?;
    print_signed(i128::from(parts), to)?;
    push(b" nodes ", to)?;
    print_signed(nodes as i128, to)?;
    push(b"\n", to)?;
    Ok(())
}

/// Appends what is said of the net of this name, and puts the section of the cut net in place of its own, if it is not
/// refused. Answers the kind of what is said.
fn cut_net(
    alloc: Global,
    spef: &SpefText,
    index: &SpefIndex,
    name: &[u8],
    parts: u32,
    text: &mut Vec<u8>,
    patch: &mut Patch,
) -> Result<AnswerKind, Memory>
    requires index { IsIndexOf spef.now index.now }
    requires some { 0 < parts }
    requires few { parts ≤ 64 }
    requires before { IsBefore index.now patch.old name.now }
    ensures { IfOk result (λ kind.
        IsCutNext spef.now index.now parts name.now kind text.old.items text.new.items patch.old patch.new) }
{
    let net = Name::from_bytes(alloc, name)?;
    match fit_net(alloc, spef, index, &net, parts) {
        Ok(par) => {
            segment_text(alloc, index, &par, parts, patch)?;
            print_cut(name, parts, cut_count(&par, parts), text)?;
            Ok(AnswerKind::Report)
        }
        Err(Refused::Net(refusal)) => {
            print_refusal(alloc, name, &refusal, text)?;
            Ok(AnswerKind::Refusal)
        }
        Err(Refused::Memory) => Err(Memory),
    }
}

/// What is said of all nets, in the order of the text, and what is replaced in it.
fn cut_all(alloc: Global, spef: &SpefText, index: &SpefIndex, parts: u32) -> Result<Cutting, Memory>
    requires index { IsIndexOf spef.now index.now }
    requires some { 0 < parts }
    requires few { parts ≤ 64 }
    ensures { IfOk result (AreAllCut spef.now index.now None parts) }
{
    let mut kind = AnswerKind::Report;
    let mut text = Vec::new(alloc);
    let mut patch = Patch::new(alloc);
    'net: for at in 0..index.net_count() {
        let name = index.sections.name(at);
        let one = cut_net(alloc, spef, index, name, parts, &mut text, &mut patch)?;
        kind = kind.worse(one);
    }
    Ok(Cutting { kind, text, patch })
}

/// What is said of the nets that are asked for, one or all, and what is replaced in the text.
pub(crate) fn cut_nets(
    alloc: Global,
    spef: &SpefText,
    index: &SpefIndex,
    net: Option<&[u8]>,
    parts: u32,
) -> Result<Cutting, Memory>
    requires index { IsIndexOf spef.now index.now }
    requires some { 0 < parts }
    requires few { parts ≤ 64 }
    ensures { IfOk result (AreAllCut spef.now index.now (named net.entry) parts) }
{
    let Some(name) = net else {
        return cut_all(alloc, spef, index, parts);
    };
    let mut text = Vec::new(alloc);
    let mut patch = Patch::new(alloc);
    let kind = cut_net(alloc, spef, index, name, parts, &mut text, &mut patch)?;
    Ok(Cutting { kind, text, patch })
}
