//! The first fault of a library's syntax.

ghost use Rattle.std.specs.Prelude.{◌≡◌, ◌⊎◌, length, IfOk, IfErr};
ghost use Rattle.lib_cells.specs.Flaws.{IsOutOfMemory};
ghost use Rattle.lib_linear.specs.Faults.{IsFirstSyntaxFault};
ghost use Rattle.lib_linear.specs.Libraries.{plain};
ghost use Rattle.lib_text.specs.Syntax.{IsLibrary};

use lib_cells::{LibFault, LibKind, OUT_OF_MEMORY};
use lib_text::{check_syntax, line_at, plain_text};
use std::alloc::Global;

/// A copy of a library's text whose comments and continued line ends are blank, as of `plain_text`; or the first fault
/// of its syntax, with the number of its line. Answers `Memory`, at line 1, where there is no room.
pub fn checked_text(alloc: Global, bytes: &[u8]) -> Result<Vec<u8>, LibFault>
    ensures text { IfOk result (λ text. text.items ≡ plain bytes.now) }
    ensures length { IfOk result (λ text. length text.items ≡ length bytes.now) }
    ensures library { IfOk result (λ text. IsLibrary text.items) }
    ensures fault { IfErr result (λ fault. IsOutOfMemory fault ⊎ IsFirstSyntaxFault bytes.now fault) }
{
    let Ok(text) = plain_text(alloc, bytes) else {
        return Err(OUT_OF_MEMORY);
    };
    match check_syntax(text.as_slice()) {
        Ok(()) => Ok(text),
        Err(at) => Err(LibFault {
            kind: LibKind::Syntax,
            line: line_at(bytes, at),
        }),
    }
}
