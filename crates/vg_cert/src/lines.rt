//! One line after another.

ghost use Rattle.std.specs.Prelude.{◌≡◌, suc, ◌<◌, ◌^◌, IfOk, IfErr, MatchResult};
ghost use Rattle.std.specs.List.{position};
ghost use Rattle.vg_scan.specs.Lines.{is_newline};
ghost use Rattle.vg_cert.specs.Readings.{IsPlace, IsTaken, IsNotDue, IsMissing};

use crate::fault::{CertFault, CertKind};
use crate::place::Place;

fn newline_at(bytes: &[u8]) -> Option<usize>
    ensures { result ≡ position is_newline bytes.now }
{
    bytes.iter().position(|byte| *byte == b'\n')
}

/// `Form` where the line that is due does not stand at the place: on what stands there, or, where nothing does, on the
/// line before.
pub(crate) fn not_due(left: &[u8], place: Place) -> CertFault
    requires { suc place.count < 2 ^ 64 }
    ensures { IsNotDue left.now place.count result }
{
    if left.is_empty() && place.count > 0 {
        return place.fault(CertKind::Form);
    }
    place.next_fault(CertKind::Form)
}

/// Takes the line that begins at the place.
///
/// Answers `Form` where no newline ends it: where nothing is left, on the line before.
pub(crate) fn next_line<'a>(bytes: &'a [u8], place: &mut Place) -> Result<&'a [u8], CertFault>
    requires { IsPlace bytes.now place.old }
    ensures taken { IfOk result (λ line. IsTaken bytes.now line.now place.old place.new) }
    ensures missing { IfErr result (IsMissing bytes.now place.old) }
{
    let left = &bytes[place.at..];
    let Some(end) = newline_at(left) else {
        return Err(not_due(left, *place));
    };
    place.at += end + 1;
    place.count += 1;
    Ok(&left[..end])
}
