//! The nets of a file.

ghost use Rattle.std.specs.Prelude.{◌≡◌, ◌<◌, length, IfOk, IfErr, ◌⊎◌};
ghost use Rattle.std.specs.List.{All};
ghost use Rattle.vg_scan.specs.Printed.{IsPrintable};
ghost use Rattle.spef_file.specs.Views.{head_in};
ghost use Rattle.spef_file.specs.Indexes.{IsIndexOf, IsSectionOf};
ghost use Rattle.spef_file.specs.IndexFiles.{file_of};
ghost use Rattle.spef_net.specs.Sections.{IsNetOf, IsFaultOf, IsNetAt, IsFaultAt, IsSized};
ghost use Rattle.spef_net.specs.declared.fault.NetKind.TheVariants.{Memory};

use crate::fault::NetFault;
use crate::finish::read_section;
use crate::net::ParNet;
use spef_file::{Section, SpefIndex, SpefText, net_lines};
use std::alloc::Global;

/// The net of a section, of this name, that is known to be the file's.
fn read_part(
    alloc: Global,
    text: &SpefText,
    index: &SpefIndex,
    name: &[u8],
    section: Section,
) -> Result<ParNet, NetFault>
    requires section { IsSectionOf text.now section }
    requires named { IsPrintable name.now }
    requires mapped { All (λ row. IsPrintable row.1) index.now.map }
    ensures net { IfOk result (IsNetOf text.now (file_of index.now) (head_in (name.now, section))) }
    ensures sized { IfOk result IsSized }
    ensures fault { IfErr result (λ fault. (fault.kind ≡ Memory)
        ⊎ IsFaultOf text.now (file_of index.now) (head_in (name.now, section)) fault) }
{
    let first = section.line as usize + 1;
    if section.reduced {
        return read_section(alloc, index, name, true, b"", first);
    }
    let lines = net_lines(text, &section);
    read_section(alloc, index, name, false, lines, first)
}

/// The net of a section of a SPEF file (IEEE Std 1481), or its first fault, with the number of its line in the file.
///
/// `index` is the index of the file's text, and `at` the place of the section in it. Other sections are not read. The
/// lines of a reduced net are not read either: it has no nodes, connections, capacitors and resistors. Answers `Conn`,
/// `Cap`, `Res`, `Number`, `Foreign` and `SelfCoupled` as `NetKind` says, and `Memory` where there is no room, with the
/// line at which it was wanted.
pub fn read_net(
    alloc: Global,
    text: &SpefText,
    index: &SpefIndex,
    at: usize,
) -> Result<ParNet, NetFault>
    requires index { IsIndexOf text.now index.now }
    requires at { at < length index.now.sections }
    ensures net { IfOk result (IsNetAt text.now (file_of index.now) at) }
    ensures sized { IfOk result IsSized }
    ensures fault { IfErr result (λ fault. (fault.kind ≡ Memory) ⊎ IsFaultAt text.now (file_of index.now) at fault) }
{
    let name = index.sections.name(at);
    let section = index.sections.get(at);
    read_part(alloc, text, index, name, section)
}
