//! What a pin group says of its pins.

ghost use Rattle.std.specs.Prelude.{◌≡◌, ℕ, List, ◌≤◌, flat_map, IfOk};
ghost use Rattle.std.specs.Str.{bytes_eq};
ghost use Rattle.lib_cells.specs.Cells.{both, direction_named, direction_of, drive_of, greatest, is_output, pin_info, timings};
ghost use Rattle.lib_cells.specs.Pins.{greater, pair_in};
ghost use Rattle.lib_cells.specs.PinTables.{named};
ghost use Rattle.lib_cells.specs.Units.{AreUnits};

use crate::related_pins::{RelatedPins, related_of};
use crate::units::Units;
use crate::values::given;
use lib_text::Group;
use std::alloc::Global;
use vg_num::Memory;

/// Which way a pin goes. Source: Liberty User Guide, Synopsys, on the attribute `direction`.
#[derive(Clone, Copy, Debug, PartialEq, Eq, Drop)]
pub enum PinDir {
    Input,
    Output,
    Inout,
    Internal,
    /// The attribute is absent, or has another value.
    Unstated,
}

/// What all pins of a pin group share.
#[derive(Drop)]
pub struct PinGroup {
    pub direction: PinDir,
    /// Their capacitance (aF), where it is given.
    pub cap: Option<u64>,
    /// Their delay without a load (zs) and their resistance (mΩ), where they are outputs and both are given: the
    /// greatest intrinsic time and the greatest resistance of the timing groups.
    pub drive: Option<(u64, u64)>,
    /// The greatest load that each of them may charge (aF), where it is given.
    pub max: Option<u64>,
    /// The pins that the timing groups of an output name as related.
    pub related: RelatedPins,
}

fn is_word(text: &[u8], word: &[u8]) -> bool
    ensures { result ≡ bytes_eq text.now word.now }
{
    text == word
}

/// The direction of this name.
fn direction_named(text: &[u8]) -> PinDir
    ensures { result ≡ direction_named text.now }
{
    if is_word(text, b"input") {
        return PinDir::Input;
    }
    if is_word(text, b"output") {
        return PinDir::Output;
    }
    if is_word(text, b"inout") {
        return PinDir::Inout;
    }
    if is_word(text, b"internal") {
        return PinDir::Internal;
    }
    PinDir::Unstated
}

/// The direction of a pin.
pub fn direction_of(pin: &Group<'_>) -> PinDir
    ensures { result ≡ direction_of pin.now }
{
    match pin.value_in(b"direction") {
        Some(text) => direction_named(text),
        None => PinDir::Unstated,
    }
}

/// The greater of two numbers, or the one that is there.
fn greater(a: Option<u64>, b: Option<u64>) -> Option<u64>
    ensures { result ≡ greater a b }
{
    match (a, b) {
        (Some(a), Some(b)) => Some(a.max(b)),
        (None, other) | (other, None) => other,
    }
}

/// The greatest number that two attributes of a pin's timing groups give.
fn greatest_in(pin: &Group<'_>, rise: &[u8], fall: &[u8], places: u32) -> Option<u64>
    requires { places ≤ 60 }
    ensures { result ≡ greatest (flat_map (pair_in rise.now fall.now places) (timings pin.now)) }
{
    let mut best = None;
    'timing: for timing in pin.groups(b"timing") {
        best = greater(
            best,
            greater(given(&timing, rise, places), given(&timing, fall, places)),
        );
    }
    best
}

/// Two numbers, where both are there.
fn both(k: Option<u64>, r: Option<u64>) -> Option<(u64, u64)>
    ensures { result ≡ both k r }
{
    match (k, r) {
        (Some(k), Some(r)) => Some((k, r)),
        _ => None,
    }
}

pub(crate) fn is_output(direction: PinDir) -> bool
    ensures { result ≡ is_output direction }
{
    match direction {
        PinDir::Output => true,
        _ => false,
    }
}

/// The drive of a pin: of an output the greatest intrinsic time and the greatest resistance of its timing groups.
fn drive_of(units: Units, pin: &Group<'_>, direction: PinDir) -> Option<(u64, u64)>
    requires units { AreUnits units }
    requires direction { direction ≡ direction_of pin.now }
    ensures { result ≡ drive_of units pin.now }
{
    if !is_output(direction) {
        return None;
    }
    both(
        greatest_in(pin, b"intrinsic_rise", b"intrinsic_fall", units.times()),
        greatest_in(
            pin,
            b"rise_resistance",
            b"fall_resistance",
            units.resistances(),
        ),
    )
}

impl PinGroup {
    /// What the pins of a pin group share.
    pub(crate) fn of(alloc: Global, units: Units, pin: &Group<'_>) -> Result<PinGroup, Memory>
        requires { AreUnits units }
        ensures { IfOk result (λ group. (name : List ℕ) → named group name ≡ pin_info units pin.now name) }
    {
        let direction = direction_of(pin);
        let related = related_of(alloc, pin, direction)?;
        Ok(PinGroup {
            direction,
            cap: given(pin, b"capacitance", units.capacitances()),
            drive: drive_of(units, pin, direction),
            max: given(pin, b"max_capacitance", units.capacitances()),
            related,
        })
    }
}
