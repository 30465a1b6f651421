//! Whether the placement of a certificate is good, and has the slack that is written.

ghost use Rattle.std.specs.Prelude.{◌≡◌, Some, IfOk, MatchOption};
ghost use Rattle.elmore.specs.Placements.{IsPlacement};
ghost use Rattle.vg_check.specs.Verdicts.{IsFault, IsGoodWith};

use crate::verdict::Verdict;
use elmore::{Problem, Scratch, first_illegal, first_wrong, slack};
use std::alloc::Global;
use vg_cert::Certificate;
use vg_num::Memory;

/// What is wrong with a placement of which this slack (zs) was written. None where nothing is.
pub(crate) fn misplaced(
    alloc: Global,
    p: &Problem,
    cert: &Certificate,
    written: i128,
) -> Result<Option<Verdict>, Memory>
    requires placement { IsPlacement p.now cert.now.placement.cells }
    requires written { cert.now.slack ≡ Some written }
    ensures { IfOk result (λ found.
        MatchOption found (IsGoodWith p.now cert.now.placement.cells written) (IsFault p.now cert.now)) }
{
    let at = &cert.placement;
    let mut scratch = Scratch::new(alloc, p.tree.nodes.len())?;
    if let Some(node) = first_illegal(p, at, &mut scratch) {
        return Ok(Some(Verdict::Illegal(node)));
    }
    if let Some(node) = first_wrong(p, at, &mut scratch) {
        return Ok(Some(Verdict::WrongPolarity(node)));
    }
    let real = slack(p, at, &mut scratch);
    if real != written {
        return Ok(Some(Verdict::WrongSlack { written, real }));
    }
    Ok(None)
}
