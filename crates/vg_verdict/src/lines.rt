//! The lines that tell what is found in a certificate.

ghost use Rattle.std.specs.Prelude.{◌≡◌, ◌++◌, ◌<◌, length, take, codes, OnOk, OnErr};
ghost use Rattle.std.specs.Fmt.{signed_decimal};
ghost use Rattle.vg_cert.specs.Written.{slack_word};
ghost use Rattle.vg_verdict.specs.Lines.{cert_kind as kind_text, certificate_line, fault_line, fault_text, node_text, valid_text, verdict_line, verdict_text};
ghost use Rattle.vg_verdict.specs.Steps.{NamesWithin};

use std::alloc::Global;
use vg_cert::{CertFault, CertKind};
use vg_check::Verdict;
use vg_num::{Memory, NumFault, print_signed};
use vg_report::{print_node, push};
use vg_scan::NetNames;

/// Appends `net NAME certificate REST` and the line's end. Where there is no room, a part of it may stand there.
fn push_line(names: &NetNames, rest: &[u8], to: &mut Vec<u8>) -> Result<(), Memory>
    ensures printed { OnOk result (to.new.items ≡ to.old.items ++ certificate_line names.now rest.now) }
    ensures begun { OnErr result (take (length to.old.items) to.new.items ≡ to.old.items) }
{
    push(b"net ", to)?;
    push(names.net.as_bytes(), to)?;
    push(b" certificate ", to)?;
    push(rest, to)?;
    push(b"\n", to)?;
    Ok(())
}

/// Appends `net NAME certificate REST` and the line's end. Where there is no room, `to` is as before.
fn print_line(names: &NetNames, rest: &[u8], to: &mut Vec<u8>) -> Result<(), Memory>
    ensures printed { OnOk result (to.new.items ≡ to.old.items ++ certificate_line names.now rest.now) }
    ensures unchanged { OnErr result (to.new.items ≡ to.old.items) }
{
    let before = to.len();
    let done = push_line(names, rest, to);
    if done.is_err() {
        to.truncate(before);
    }
    done
}

/// Appends a word and a node of the net.
fn print_at(word: &[u8], names: &NetNames, node: u32, to: &mut Vec<u8>) -> Result<(), Memory>
    requires { node < length names.now.nodes }
    ensures { OnOk result (to.new.items ≡ to.old.items ++ (word.now ++ node_text names.now node)) }
{
    push(word, to)?;
    print_node(&names.nodes.as_slice()[node as usize], to)?;
    Ok(())
}

/// Appends a slack (zs), or `none`.
fn print_slack(slack: Option<i128>, to: &mut Vec<u8>) -> Result<(), Memory>
    ensures { OnOk result (to.new.items ≡ to.old.items ++ slack_word slack) }
{
    match slack {
        None => push(b"none", to)?,
        Some(slack) => print_signed(slack, to)?,
    }
    Ok(())
}

/// Appends `valid slack S`, with S in zeptoseconds.
fn print_valid_slack(slack: i128, to: &mut Vec<u8>) -> Result<(), Memory>
    ensures { OnOk result (to.new.items ≡ to.old.items ++ (codes "valid slack " ++ signed_decimal slack)) }
{
    push(b"valid slack ", to)?;
    print_signed(slack, to)?;
    Ok(())
}

/// Appends `valid slack S`, with S in zeptoseconds, or `valid none`.
fn print_valid(slack: Option<i128>, to: &mut Vec<u8>) -> Result<(), Memory>
    ensures { OnOk result (to.new.items ≡ to.old.items ++ valid_text slack) }
{
    match slack {
        None => push(b"valid none", to)?,
        Some(slack) => print_valid_slack(slack, to)?,
    }
    Ok(())
}

/// Appends `slack WRITTEN REAL`, in zeptoseconds.
fn print_slacks(written: i128, real: i128, to: &mut Vec<u8>) -> Result<(), Memory>
    ensures { OnOk result (to.new.items ≡ to.old.items
        ++ (codes "slack " ++ (signed_decimal written ++ (codes " " ++ signed_decimal real)))) }
{
    push(b"slack ", to)?;
    print_signed(written, to)?;
    push(b" ", to)?;
    print_signed(real, to)?;
    Ok(())
}

/// Appends `bound WRITTEN BOUND`, in zeptoseconds.
fn print_bound(written: Option<i128>, bound: i128, to: &mut Vec<u8>) -> Result<(), Memory>
    ensures { OnOk result (to.new.items ≡ to.old.items
        ++ (codes "bound " ++ (slack_word written ++ (codes " " ++ signed_decimal bound)))) }
{
    push(b"bound ", to)?;
    print_slack(written, to)?;
    push(b" ", to)?;
    print_signed(bound, to)?;
    Ok(())
}

/// Appends what a verdict says of a certificate with this slack (zs).
fn print_found(
    names: &NetNames,
    slack: Option<i128>,
    verdict: Verdict,
    to: &mut Vec<u8>,
) -> Result<(), Memory>
    requires { NamesWithin (length names.now.nodes) verdict }
    ensures { OnOk result (to.new.items ≡ to.old.items ++ verdict_text names.now slack verdict) }
{
    match verdict {
        Verdict::Yes => print_valid(slack, to)?,
        Verdict::Illegal(node) => print_at(b"illegal ", names, node, to)?,
        Verdict::WrongPolarity(node) => print_at(b"polarity ", names, node, to)?,
        Verdict::WrongSlack { written, real } => print_slacks(written, real, to)?,
        Verdict::Uncovered(node) => print_at(b"uncovered ", names, node, to)?,
        Verdict::NotBest { written, bound } => print_bound(written, bound, to)?,
    }
    Ok(())
}

/// Appends the line of a verdict on a certificate with this slack (zs). Where there is no room, `to` is as before.
pub(crate) fn print_verdict(
    alloc: Global,
    names: &NetNames,
    slack: Option<i128>,
    verdict: Verdict,
    to: &mut Vec<u8>,
) -> Result<(), Memory>
    requires { NamesWithin (length names.now.nodes) verdict }
    ensures printed { OnOk result (to.new.items ≡ to.old.items ++ verdict_line names.now slack verdict) }
    ensures unchanged { OnErr result (to.new.items ≡ to.old.items) }
{
    let mut found = Vec::new(alloc);
    print_found(names, slack, verdict, &mut found)?;
    print_line(names, &found, to)?;
    Ok(())
}

/// The name of a fault of a certificate.
fn cert_kind(kind: CertKind) -> &'static [u8]
    ensures { result.now ≡ kind_text kind }
{
    match kind {
        CertKind::Form => b"Form",
        CertKind::Number(NumFault::Form) => b"Number Form",
        CertKind::Number(NumFault::Negative) => b"Number Negative",
        CertKind::Number(NumFault::TooLarge) => b"Number TooLarge",
        CertKind::Node => b"Node",
        CertKind::Cell => b"Cell",
        CertKind::Order => b"Order",
        CertKind::Memory => b"Memory",
    }
}

/// Appends `fault KIND line L`.
fn print_kind(fault: CertFault, to: &mut Vec<u8>) -> Result<(), Memory>
    ensures { OnOk result (to.new.items ≡ to.old.items ++ fault_text fault) }
{
    push(b"fault ", to)?;
    push(cert_kind(fault.kind), to)?;
    push(b" line ", to)?;
    print_signed(fault.line as i128, to)?;
    Ok(())
}

/// Appends the line of a fault of a certificate. Where there is no room, `to` is as before.
pub(crate) fn print_fault(
    alloc: Global,
    names: &NetNames,
    fault: CertFault,
    to: &mut Vec<u8>,
) -> Result<(), Memory>
    ensures printed { OnOk result (to.new.items ≡ to.old.items ++ fault_line names.now fault) }
    ensures unchanged { OnErr result (to.new.items ≡ to.old.items) }
{
    let mut found = Vec::new(alloc);
    print_kind(fault, &mut found)?;
    print_line(names, &found, to)?;
    Ok(())
}
