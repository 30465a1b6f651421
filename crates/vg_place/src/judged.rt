//! What was said of nets, and the files in which the cells of their placements are put.

ghost use Rattle.std.specs.Prelude.{◌≡◌, [], length, map, IfOk};
ghost use Rattle.vg_patch.specs.Edits.{Rise};
ghost use Rattle.vg_answer.specs.Answers.{said_by, written_by};
ghost use Rattle.vg_place.specs.Placings.{changed_files};
ghost use Rattle.vg_place.specs.Steps.{said_with};

use std::alloc::Global;
use vg_answer::{Answer, AnswerKind, NewFile, NewText, Output};
use vg_change::Patches;
use vg_num::Memory;
use vg_patch::{Patch, Patched};

/// What was said of nets, and what is replaced in the texts of their design.
#[derive(Drop)]
pub struct Judged {
    pub kind: AnswerKind,
    pub text: Vec<u8>,
    pub patches: Patches,
}

/// Nothing that is replaced.
pub fn no_patches(alloc: Global) -> Patches
    ensures verilog { result.verilog ≡ [] }
    ensures spef { result.spef ≡ [] }
{
    Patches {
        verilog: Patch::new(alloc),
        spef: Patch::new(alloc),
    }
}

/// The files that are written, in order. Answers `Memory` where there is no room for the list.
fn new_files(alloc: Global, verilog: Patched, spef: Patched) -> Result<Vec<NewFile>, Memory>
    ensures { IfOk result (λ files. map written_by files.items
        ≡ changed_files (record { verilog = verilog; spef = spef })) }
{
    let mut files = Vec::new(alloc);
    files.push(NewFile {
        output: Output::Netlist,
        text: NewText::Patched(verilog),
    })?;
    files.push(NewFile {
        output: Output::Parasitics,
        text: NewText::Patched(spef),
    })?;
    Ok(files)
}

impl Judged {
    /// The answer, with the netlist and the parasitics that are written: these texts of the design, with what is
    /// replaced in them. Answers `Memory` where there is no room for their list.
    pub fn into_answer(
        self,
        alloc: Global,
        verilog: Vec<u8>,
        spef: Vec<u8>,
    ) -> Result<Answer, Memory>
        requires verilog { Rise 0 (length verilog.items) self.patches.verilog }
        requires spef { Rise 0 (length spef.items) self.patches.spef }
        ensures kind { IfOk result (λ answer. answer.kind ≡ self.kind) }
        ensures said { IfOk result (λ answer. said_by answer
            ≡ said_with self (record { verilog = verilog.items; spef = spef.items })) }
    {
        let Judged {
            kind,
            text,
            patches,
        } = self;
        let verilog = Patched::new(verilog, patches.verilog);
        let spef = Patched::new(spef, patches.spef);
        let files = new_files(alloc, verilog, spef)?;
        Ok(Answer { kind, text, files })
    }
}
