//! From the text of a netlist to the module that it denotes.

ghost use Rattle.std.specs.Prelude.{◌≡◌, ◌⊎◌, ◌<◌, ◌≤◌, ◌^◌, [], length, IfOk, IfErr, IfSome, OnOk};
ghost use Rattle.ver_syntax.specs.Syntax.{IsFirstFault as IsFirstSyntaxFault, IsModule, IsOutOfMemory};
ghost use Rattle.ver_items.specs.Sections.{items};
ghost use Rattle.ver_file.specs.Flaws.{IsFirst, flaws_of};
ghost use Rattle.ver_file.specs.Modules.{Denotes, IsFirstFault};
ghost use Rattle.ver_file.specs.Netlists.{netlist_of};
ghost use Rattle.ver_file.specs.Bodies.{IsBody};
ghost use Rattle.ver_file.specs.Tables.{AreIdentifiers, IsNetTable};

use crate::build::{Body, head_end, module_name, read_body};
use crate::identifier::Identifiers;
use crate::nets::{Table, first_clash, nets_of};
use crate::scope::Scope;
use std::alloc::Global;
use std::cell::Cell;
use ver_items::KeptItems;
use ver_module::{Module, Nets};
use ver_syntax::{VerFault, VerKind, check_module};
use vg_num::Memory;

/// Out of memory, which is told at line 1.
const OUT_OF_MEMORY: VerFault = VerFault {
    kind: VerKind::Memory,
    line: 1,
};

/// The module of a text that has the grammar of one, with these identifiers, or the first of its flaws. Its items may
/// be kept.
fn build(
    alloc: Global,
    text: &[u8],
    identifiers: Identifiers,
    kept: Option<&KeptItems>,
) -> Result<Result<Module, VerFault>, Memory>
    requires few { length text.now < 2 ^ 32 }
    requires table { AreIdentifiers text.now identifiers }
    requires kept { IfSome kept (λ k. k.now ≡ items text.now) }
    ensures flawless { IfOk result (λ built. OnOk built (flaws_of text.now ≡ [])) }
    ensures module { IfOk result (λ built. IfOk built (λ found. found ≡ netlist_of text.now)) }
    ensures fault { IfOk result (λ built. IfErr built (IsFirst text.now (flaws_of text.now))) }
{
    let Table { nets, froms, uses } = nets_of(alloc, text, identifiers)?;
    let scope = Scope {
        text,
        nets: &nets,
        uses: &uses,
        next: Cell::new(0),
    };
    let clash = first_clash(&scope, &froms);
    drop(froms);
    let body = read_body(alloc, &scope, kept, clash)?;
    match body.firsts.fault(text) {
        Some(fault) => Ok(Err(fault)),
        None => {
            let module = assemble(alloc, text, nets, body)?;
            Ok(Ok(module))
        }
    }
}

/// The module of a text without a flaw.
fn assemble(alloc: Global, text: &[u8], nets: Nets, body: Body) -> Result<Module, Memory>
    requires few { length text.now < 2 ^ 32 }
    requires nets { IsNetTable text.now nets }
    requires body { IsBody text.now body }
    requires flawless { flaws_of text.now ≡ [] }
    ensures { IfOk result (λ built. built ≡ netlist_of text.now) }
{
    let name = module_name(alloc, text)?;
    Ok(Module::new(
        name,
        nets,
        body.instances,
        body.assigned,
        head_end(text),
        body.end.unwrap_or(0),
    ))
}

/// The first fault of a text that is no module, or that memory is out.
fn syntax_fault(alloc: Global, text: &[u8]) -> VerFault
    requires { IsModule text.now → ⊥ }
    ensures { IsOutOfMemory result ⊎ IsFirstSyntaxFault text.now result }
{
    match check_module(alloc, text) {
        Err(fault) => fault,
        Ok(()) => unreachable!(),
    }
}

/// The module that a text denotes; or the text's first fault, with the number of its line. Answers `Memory`, at line 1,
/// where there is no room, as where the module would have 2^32 nets or more.
///
/// The text is a structural module of IEEE Std 1364-2005: declarations of ports and nets, continuous assignments, and
/// instances with connections by name. Its tokens are read first, then its grammar, then what its names mean: of
/// several faults the first of the first of these passes is told, at one place `NameClash` before all else.
pub fn read_module(alloc: Global, bytes: &[u8]) -> Result<Module, VerFault>
    requires { length bytes.now ≤ 2 ^ 28 }
    ensures denoted { IfOk result (Denotes bytes.now) }
    ensures fault { IfErr result (λ fault. IsOutOfMemory fault ⊎ IsFirstFault bytes.now fault) }
{
    let Ok(found) = Identifiers::of(alloc, bytes) else {
        return Err(OUT_OF_MEMORY);
    };
    let Some((identifiers, kept)) = found else {
        return Err(syntax_fault(alloc, bytes));
    };
    match build(alloc, bytes, identifiers, kept.as_ref()) {
        Ok(built) => built,
        Err(_) => Err(OUT_OF_MEMORY),
    }
}
