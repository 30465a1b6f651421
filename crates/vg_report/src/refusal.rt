//! Why a net is refused, as text.

ghost use Rattle.std.specs.Prelude.{◌≡◌, ◌++◌, OnOk, OnErr};
ghost use Rattle.vg_report.specs.Reports.{refusal_kind, refusal_line};

use crate::faults::print_net_fault;
use crate::report::{print_node, print_refused, push};
use spef_wire::Refusal;
use std::alloc::Global;
use vg_num::Memory;

/// Appends the kind of a refusal, and what it tells.
fn print_kind(refusal: &Refusal, to: &mut Vec<u8>) -> Result<(), Memory>
    ensures { OnOk result (to.new.items ≡ to.old.items ++ refusal_kind refusal.now) }
{
    match refusal {
        Refusal::UnknownNet => push(b"UnknownNet", to)?,
        Refusal::Section(fault) => {
            push(b"Section ", to)?;
            print_net_fault(*fault, to)?;
        }
        Refusal::Reduced => push(b"Reduced", to)?,
        Refusal::Inductive => push(b"Inductive", to)?,
        Refusal::Bidirectional => push(b"Bidirectional", to)?,
        Refusal::NoDriver => push(b"NoDriver", to)?,
        Refusal::ManyDrivers => push(b"ManyDrivers", to)?,
        Refusal::Mismatch => push(b"Mismatch", to)?,
        Refusal::Tied => push(b"Tied", to)?,
        Refusal::NoDrive => push(b"NoDrive", to)?,
        Refusal::NoLoad(node) => {
            push(b"NoLoad ", to)?;
            print_node(node, to)?;
        }
        Refusal::Floating(node) => {
            push(b"Floating ", to)?;
            print_node(node, to)?;
        }
        Refusal::Loop => push(b"Loop", to)?,
        Refusal::NoSink => push(b"NoSink", to)?,
        Refusal::Unconstrained(node) => {
            push(b"Unconstrained ", to)?;
            print_node(node, to)?;
        }
        Refusal::TooLarge => push(b"TooLarge", to)?,
    }
    Ok(())
}

/// Appends the line that tells why a net is refused. Answers `Memory` where there is no room, and then `to` is as
/// before.
pub fn print_refusal(
    alloc: Global,
    name: &[u8],
    refusal: &Refusal,
    to: &mut Vec<u8>,
) -> Result<(), Memory>
    ensures printed { OnOk result (to.new.items ≡ to.old.items ++ refusal_line name.now refusal.now) }
    ensures unchanged { OnErr result (to.new.items ≡ to.old.items) }
{
    let mut kind = Vec::new(alloc);
    print_kind(refusal, &mut kind)?;
    let before = to.len();
    let done = print_refused(name, refusal.number(), &kind, to);
    if done.is_err() {
        to.truncate(before);
    }
    done
}
