//! The check of a certificate, part by part.

ghost use Rattle.std.specs.Prelude.{◌≡◌, ◌↔◌, IfOk, MatchOption};
ghost use Rattle.cand_pairs.specs.Candidates.{IsCover, of_lists};
ghost use Rattle.cand_pairs.specs.Certificates.{IsValid, IsShown};
ghost use Rattle.vg_cert.specs.Fits.{Fits, lists_of};
ghost use Rattle.vg_check.specs.Verdicts.{IsFault, IsPlacementSound, IsVerdict};
ghost use Rattle.vg_check.specs.declared.verdict.Verdict.TheVariants.{Yes};

use crate::bound::{is_over, root_bound};
use crate::climb::last_uncovered;
use crate::placed::misplaced;
use crate::verdict::Verdict;
use elmore::Problem;
use std::alloc::Global;
use vg_cert::Certificate;
use vg_num::Memory;

/// What is wrong with the placement of a certificate. None where nothing is, or where no slack is written.
fn judge_placement(
    alloc: Global,
    p: &Problem,
    cert: &Certificate,
) -> Result<Option<Verdict>, Memory>
    requires fits { Fits p.now cert.now }
    ensures { IfOk result (λ found. MatchOption found (IsPlacementSound p.now cert.now) (IsFault p.now cert.now)) }
{
    match cert.slack {
        Some(written) => {
            let found = misplaced(alloc, p, cert, written)?;
            Ok(found)
        }
        None => Ok(None),
    }
}

/// Whether the lists leave room at the root for more slack than is written. All else of the certificate is as it should
/// be.
fn judge_bound(p: &Problem, cert: &Certificate) -> Verdict
    requires fits { Fits p.now cert.now }
    requires placement { IsPlacementSound p.now cert.now }
    requires cover { IsCover p.now (of_lists (lists_of cert.now)) }
    ensures verdict { IsVerdict p.now cert.now result }
    ensures valid { result ≡ Yes → IsValid p.now cert.now.slack cert.now.placement.cells (lists_of cert.now) }
{
    match root_bound(p, &cert.lists[0].even) {
        Some(bound) if is_over(bound, cert.slack) => Verdict::NotBest {
            written: cert.slack,
            bound,
        },
        _ => Verdict::Yes,
    }
}

/// Checks a certificate: whether its placement is good and has the slack that is written, where one is; whether its
/// lists cover what comes up to each node; and whether they leave no room for more slack at the root. Answers the first
/// of these that does not hold, and `Memory` where there is no room. A certificate that is answered `Yes` shows that
/// its placement is best, or that no placement is good, whoever made it.
///
/// Each node is judged by the undominated pairs that the lists of its children come to, from the last node to the root,
/// and its own lists go on to its parent.
pub fn check(alloc: Global, p: &Problem, cert: &Certificate) -> Result<Verdict, Memory>
    requires fits { Fits p.now cert.now }
    ensures verdict { IfOk result (IsVerdict p.now cert.now) }
    ensures valid { IfOk result (λ verdict. (verdict ≡ Yes)
        ↔ IsValid p.now cert.now.slack cert.now.placement.cells (lists_of cert.now)) }
    ensures shown { IfOk result (λ verdict. verdict ≡ Yes → IsShown p.now cert.now.slack cert.now.placement.cells) }
{
    if let Some(verdict) = judge_placement(alloc, p, cert)? {
        return Ok(verdict);
    }
    if let Some(node) = last_uncovered(alloc, p, &cert.lists)? {
        return Ok(Verdict::Uncovered(node));
    }
    Ok(judge_bound(p, cert))
}
