//! What is found in a certificate's text.

ghost use Rattle.std.specs.Prelude.{◌≡◌, ◌≤◌, ◌^◌, length, IfOk, OnErr};
ghost use Rattle.vg_cert.specs.Fits.{Fits};
ghost use Rattle.vg_cert.specs.Names.{AreNamesOf};
ghost use Rattle.vg_verdict.specs.Judged.{Judges};
ghost use Rattle.vg_verdict.specs.Steps.{TellsVerdict};

use crate::lines::{print_fault, print_verdict};
use elmore::Problem;
use std::alloc::Global;
use vg_cert::{CertKind, Certificate, read_certificate};
use vg_check::{Verdict, check};
use vg_num::Memory;
use vg_scan::NetNames;

/// Checks a certificate, and appends the line of the verdict. Answers whether it is valid. Where there is no room, `to`
/// is as before.
fn judge_certificate(
    alloc: Global,
    problem: &Problem,
    names: &NetNames,
    cert: &Certificate,
    to: &mut Vec<u8>,
) -> Result<bool, Memory>
    requires fits { Fits problem.now cert.now }
    requires names { AreNamesOf problem.now names.now }
    ensures told { IfOk result (TellsVerdict problem.now names.now cert.now to.old.items to.new.items) }
    ensures unchanged { OnErr result (to.new.items ≡ to.old.items) }
{
    let verdict = check(alloc, problem, cert)?;
    print_verdict(alloc, names, cert.slack, verdict, to)?;
    Ok(matches!(verdict, Verdict::Yes))
}

/// Reads the text of a certificate of a net with this problem and these names, checks it, and appends one line: of the
/// text's first fault, or of the verdict. Answers whether the text is a valid certificate; and `Memory` where there is
/// no room, and then `to` is as before.
pub fn judge_text(
    alloc: Global,
    problem: &Problem,
    names: &NetNames,
    bytes: &[u8],
    to: &mut Vec<u8>,
) -> Result<bool, Memory>
    requires few { length bytes.now ≤ 2 ^ 28 }
    requires names { AreNamesOf problem.now names.now }
    ensures judged { IfOk result (Judges problem.now names.now bytes.now to.old.items to.new.items) }
    ensures unchanged { OnErr result (to.new.items ≡ to.old.items) }
{
    match read_certificate(alloc, bytes, problem, names) {
        Ok(cert) => {
            let valid = judge_certificate(alloc, problem, names, &cert, to)?;
            Ok(valid)
        }
        Err(fault) => match fault.kind {
            CertKind::Memory => Err(Memory),
            _ => {
                print_fault(alloc, names, fault, to)?;
                Ok(false)
            }
        },
    }
}
