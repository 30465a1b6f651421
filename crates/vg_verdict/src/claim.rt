//! What a search for a best placement answers, as a certificate.

ghost use Rattle.std.specs.Prelude.{◌≡◌, ℕ, true, map, IfOk};
ghost use Rattle.cand_pairs.specs.Certificates.{IsValid};
ghost use Rattle.vg_cert.specs.Fits.{Fits, list_of, lists_of};
ghost use Rattle.vg_slack.specs.Bests.{IsAnswer};
ghost use Rattle.vg_slack.specs.Kept.{AreListsOf, kept_in};
ghost use Rattle.vg_verdict.specs.Claims.{IsClaimOf, HasKept};

use elmore::{Placement, Problem};
use std::alloc::Global;
use vg_cert::{Certificate, NodeLists};
use vg_num::Memory;
use vg_slack::{Answer, Lists};

/// The lists that a search kept, as those of a certificate. Their pairs are moved and not copied. Answers `Memory`
/// where there is no room for one element for each node.
fn moved(alloc: Global, lists: Lists) -> Result<Vec<NodeLists>, Memory>
    ensures { IfOk result (λ moved. map list_of moved.items ≡ map kept_in lists.nodes.items) }
{
    let mut moved = Vec::with_capacity(alloc, lists.nodes.len())?;
    'nodes: for kept in lists.nodes {
        moved.push(NodeLists {
            even: kept.even,
            odd: kept.odd,
        })?;
    }
    Ok(moved)
}

/// The certificate of what a search answered that kept the lists of all nodes: the slack and the placement that it
/// found, or none and no cell; and for each node with a sink at it or below it, and each class, all pairs that no other
/// pair there dominates. It shows that the placement is best, or that no placement is good. The pairs are moved and not
/// copied. Answers `Memory` where there is no room for one element for each node.
pub fn certificate(alloc: Global, p: &Problem, answer: Answer) -> Result<Certificate, Memory>
    requires found { IsAnswer p.now answer.found }
    requires lists { AreListsOf p.now true answer.lists }
    ensures fits { IfOk result (Fits p.now) }
    ensures valid { IfOk result (λ cert. IsValid p.now cert.slack cert.placement.cells (lists_of cert)) }
    ensures found { IfOk result (IsClaimOf answer.found) }
    ensures lists { IfOk result (HasKept p.now) }
{
    let Answer { found, lists } = answer;
    let lists = moved(alloc, lists)?;
    match found {
        Some(best) => Ok(Certificate {
            slack: Some(best.slack),
            placement: best.placement,
            lists,
        }),
        None => {
            let placement = Placement::empty(alloc, p.tree.nodes.len())?;
            Ok(Certificate {
                slack: None,
                placement,
                lists,
            })
        }
    }
}
