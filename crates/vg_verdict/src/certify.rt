//! Certificates of what a search found.

ghost use Rattle.std.specs.Prelude.{◌≡◌, true, IfOk};
ghost use Rattle.vg_cert.specs.Names.{AreNamesOf};
ghost use Rattle.vg_cert.specs.Written.{joined};
ghost use Rattle.vg_slack.specs.Bests.{IsAnswer};
ghost use Rattle.vg_slack.specs.Kept.{AreListsOf};
ghost use Rattle.vg_verdict.specs.Judged.{CountsEntries, IsCertificateOf};
ghost use Rattle.vg_verdict.specs.Steps.{claim_of};

use crate::certificate;
use crate::count::count_pairs;
use crate::made::{Certified, Summed};
use elmore::Problem;
use std::alloc::Global;
use vg_cert::{Certificate, take_text};
use vg_check::{Verdict, check};
use vg_num::Memory;
use vg_scan::NetNames;
use vg_slack::{Answer, Best};

/// The placement that a certificate claims to be best, and its slack (zs), if it claims one.
fn claim(cert: Certificate) -> Option<Best>
    ensures { result ≡ claim_of cert }
{
    let Certificate {
        slack,
        placement,
        ..
    } = cert;
    match slack {
        Some(slack) => Some(Best { slack, placement }),
        None => None,
    }
}

/// What a search found that kept the lists of all nodes, and the text of its certificate, with these names. Nothing is
/// copied, and the lists of a node are let go as soon as they are written. Answers `Memory` where there is no room for
/// the text.
pub fn certified(
    alloc: Global,
    problem: &Problem,
    names: &NetNames,
    answer: Answer,
) -> Result<Certified, Memory>
    requires found { IsAnswer problem.now answer.found }
    requires lists { AreListsOf problem.now true answer.lists }
    requires names { AreNamesOf problem.now names.now }
    ensures found { IfOk result (λ made. made.found ≡ answer.found) }
    ensures text { IfOk result (λ made. IsCertificateOf problem.now names.now answer.found (joined made.text.items)) }
{
    let mut cert = certificate(alloc, problem, answer)?;
    let text = take_text(alloc, &mut cert, problem, names)?;
    Ok(Certified {
        found: claim(cert),
        text,
    })
}

/// What a search found that kept the lists of all nodes, and how many pairs its certificate has: all that are
/// undominated at the nodes of the net. The certificate is checked, and proved to pass. Answers `Memory` where there is
/// no room.
pub fn summed_up(alloc: Global, problem: &Problem, answer: Answer) -> Result<Summed, Memory>
    requires found { IsAnswer problem.now answer.found }
    requires lists { AreListsOf problem.now true answer.lists }
    ensures found { IfOk result (λ made. made.found ≡ answer.found) }
    ensures entries { IfOk result (λ made. CountsEntries problem.now made.entries) }
{
    let cert = certificate(alloc, problem, answer)?;
    let Verdict::Yes = check(alloc, problem, &cert)? else {
        unreachable!();
    };
    let entries = count_pairs(&cert.lists);
    Ok(Summed {
        found: claim(cert),
        entries,
    })
}
