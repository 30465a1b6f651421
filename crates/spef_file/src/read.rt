//! The lines of a file, one after another, and the index that they give.

ghost use Rattle.std.specs.Prelude.{◌≡◌, ◌<◌, ◌≤◌, ◌^◌, length, IfOk, IfErr, ◌⊎◌, Ok, Err, []};
ghost use Rattle.vg_scan.specs.Lines.{lines_of};
ghost use Rattle.spef_file.specs.declared.fault.SpefKind.TheVariants.{Memory};
ghost use Rattle.spef_file.specs.Machine.{START};
ghost use Rattle.spef_file.specs.Machine.{read, said};
ghost use Rattle.spef_file.specs.Files.{IsFileFault};
ghost use Rattle.spef_file.specs.NetSpans.{AreSpans};
ghost use Rattle.spef_file.specs.Views.{state_of, IsWhole};
ghost use Rattle.spef_file.specs.IndexFiles.{file_of};
ghost use Rattle.spef_file.specs.Indexes.{IsIndexOf};

use crate::fault::{SpefFault, SpefKind};
use crate::header::Header;
use crate::heading::Heading;
use crate::keyword::Region;
use crate::lines::take_line;
use crate::name_map::NameMap;
use crate::reader::Reader;
use crate::sections::Sections;
use crate::spef_index::SpefIndex;
use crate::spef_text::SpefText;
use std::alloc::Global;
use vg_scan::{Chars, next_line};

/// What is said before the first line.
fn start(alloc: Global) -> Reader
    ensures state_of { state_of result ≡ START }
    ensures whole { IsWhole result }
    ensures empty { (result.nets ≡ []) × (result.count ≡ 0) }
{
    let chars = Chars {
        divider: b'/',
        delimiter: b':',
        bus_left: b'[',
        bus_right: b']',
    };
    Reader {
        headed: 0,
        heading: Heading {
            chars,
            c_places: 0,
            r_places: 0,
        },
        region: Region::Outside,
        count: 0,
        map: NameMap::new(alloc),
        nets: Sections::new(alloc),
    }
}

/// What all lines say of a text that has no comments.
fn read_lines(alloc: Global, bytes: &[u8]) -> Result<Reader, SpefFault>
    requires { length bytes.now ≤ 2 ^ 28 }
    ensures said { IfOk result (λ reader. read START (lines_of bytes.now) ≡ Ok (state_of reader)) }
    ensures whole { IfOk result IsWhole }
    ensures spans { IfOk result (λ reader. AreSpans bytes.now (lines_of bytes.now) reader.nets) }
    ensures fault { IfErr result (λ fault. (fault.kind ≡ Memory) ⊎ (read START (lines_of bytes.now) ≡ Err fault)) }
{
    let mut reader = start(alloc);
    let mut found = Vec::new(alloc);
    let mut name = Vec::new(alloc);
    let mut at = 0;
    'line: while let Some((line, next)) = next_line(bytes, at) {
        let number = reader.count + 1;
        match take_line(&mut name, &mut reader, bytes, line, next, &mut found) {
            Err(kind) => return Err(SpefFault { kind, line: number }),
            Ok(to) => {
                at = to;
            }
        }
    }
    Ok(reader)
}

/// The index that the lines give.
fn finish(reader: Reader) -> SpefIndex
    requires { IsWhole reader }
    ensures file_of { file_of result ≡ said (state_of reader) }
    ensures sections { result.sections ≡ reader.nets }
{
    let header = Header {
        chars: reader.heading.chars,
        c_places: i32::from(reader.heading.c_places),
        r_places: i32::from(reader.heading.r_places),
    };
    SpefIndex {
        header,
        map: reader.map,
        sections: reader.nets,
    }
}

/// The index of a SPEF file (IEEE Std 1481), or its first fault. The doc of each `SpefKind` says when it is answered;
/// of two kinds on one line the first in the order of the enum is. A header line that is missing is reported at the
/// last line, or at line 1 of an empty file.
///
/// Answers `Memory` where there is no room, with the line at which it was wanted.
pub fn index(alloc: Global, text: &SpefText) -> Result<SpefIndex, SpefFault>
    ensures index { IfOk result (IsIndexOf text.now) }
    ensures fault { IfErr result (λ fault. (fault.kind ≡ Memory) ⊎ IsFileFault text.now fault) }
{
    match read_lines(alloc, text.as_bytes()) {
        Err(fault) => Err(fault),
        Ok(reader) => {
            if reader.headed < 14 {
                return Err(SpefFault {
                    kind: SpefKind::Header,
                    line: reader.count.max(1),
                });
            }
            Ok(finish(reader))
        }
    }
}
