//! The parts of a row: names and numbers.

ghost use Rattle.std.specs.Prelude.{◌≡◌, ℕ, List};
ghost use Rattle.vg_scan.specs.declared.name.NodeName.{NodeName};
ghost use Rattle.vg_cons.specs.Statements.{CHARS, pin_in, port_in, inner_in, time_in, thousandths_in, coordinate_in};
ghost use Rattle.vg_cons.specs.Views.{Agrees};

use crate::fault::ConsKind;
use std::alloc::Global;
use vg_num::{read_scaled, read_signed};
use vg_scan::{Chars, Name, NameFault, NodeName, inner_name, is_reference, node_name, port_name};

/// The bytes that have a meaning in the names of a constraints text.
fn name_chars() -> Chars
    ensures { result ≡ CHARS }
{
    Chars {
        divider: b'/',
        delimiter: b':',
        bus_left: b'[',
        bus_right: b']',
    }
}

/// The name of a pin.
#[tactic(auto, unfolding(crate::specs::Statements::pin_in))]
pub(crate) fn pin_of(alloc: Global, word: &[u8]) -> Result<NodeName, ConsKind>
    ensures { Agrees (λ (name : NodeName). name) result (pin_in word.now) }
{
    if is_reference(word) {
        return Err(ConsKind::Word);
    }
    match node_name(alloc, word, &name_chars()) {
        Ok(name) => Ok(name),
        Err(NameFault::Bad) => Err(ConsKind::Word),
        Err(NameFault::Memory) => Err(ConsKind::Memory),
    }
}

/// The name of a port.
#[tactic(auto, unfolding(crate::specs::Statements::port_in))]
pub(crate) fn port_of(alloc: Global, word: &[u8]) -> Result<Name, ConsKind>
    ensures { Agrees (λ (name : List ℕ). name) result (port_in word.now) }
{
    if is_reference(word) {
        return Err(ConsKind::Word);
    }
    match port_name(alloc, word, &name_chars()) {
        Ok(name) => Ok(name),
        Err(NameFault::Bad) => Err(ConsKind::Word),
        Err(NameFault::Memory) => Err(ConsKind::Memory),
    }
}

/// The name of a node inside an instance or a net.
#[tactic(auto, unfolding(crate::specs::Statements::inner_in))]
pub(crate) fn inner_of(alloc: Global, word: &[u8]) -> Result<NodeName, ConsKind>
    ensures { Agrees (λ (name : NodeName). name) result (inner_in word.now) }
{
    if is_reference(word) {
        return Err(ConsKind::Word);
    }
    match inner_name(alloc, word, &name_chars()) {
        Ok(name) => Ok(name),
        Err(NameFault::Bad) => Err(ConsKind::Word),
        Err(NameFault::Memory) => Err(ConsKind::Memory),
    }
}

/// A number of picoseconds, in zeptoseconds.
#[tactic(auto, unfolding(crate::specs::Statements::time_in))]
pub(crate) fn read_time(word: &[u8]) -> Result<i128, ConsKind>
    ensures { result ≡ time_in word.now }
{
    match read_signed(word, 9) {
        Ok(time) => Ok(time),
        Err(fault) => Err(ConsKind::Number(fault)),
    }
}

/// A number of ohms in milliohms, or of femtofarads in attofarads.
#[tactic(auto, unfolding(crate::specs::Statements::thousandths_in))]
pub(crate) fn read_thousandths(word: &[u8]) -> Result<u64, ConsKind>
    ensures { result ≡ thousandths_in word.now }
{
    match read_scaled(word, 3) {
        Ok(number) => Ok(number),
        Err(fault) => Err(ConsKind::Number(fault)),
    }
}

/// A coordinate, in thousandths.
#[tactic(auto, unfolding(crate::specs::Statements::coordinate_in))]
pub(crate) fn read_coordinate(word: &[u8]) -> Result<i128, ConsKind>
    ensures { result ≡ coordinate_in word.now }
{
    match read_signed(word, 3) {
        Ok(number) => Ok(number),
        Err(fault) => Err(ConsKind::Number(fault)),
    }
}
