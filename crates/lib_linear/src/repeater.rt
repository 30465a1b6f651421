//! What makes a cell of a library a repeater. Source: Liberty User Guide, Synopsys, on the linear delay model.

ghost use Rattle.std.specs.Prelude.{◌≡◌, ◌≤◌, ◌^◌, ◌&&◌, Bool, nat_lt, nat_le, length, find, None, Some, IfOk, MatchBool, MatchOption, [], codes};
ghost use Rattle.std.specs.List.{list_all};
ghost use Rattle.std.specs.Str.{bytes_eq};
ghost use Rattle.vg_scan.specs.Lines.{words};
ghost use Rattle.lib_text.specs.Groups.{groups_in};
ghost use Rattle.elmore.specs.declared.rep.Rep.{Rep as RepSpec};
ghost use Rattle.lib_cells.specs.PinInfos.{PinInfo};
ghost use Rattle.lib_cells.specs.Cells.{area_of, cell_body, direction_of, is_output, pin_groups};
ghost use Rattle.lib_linear.specs.Repeaters.{AreInOut, ArePartsOf, AreSmall, AreTwoPins, Follows, IsFunction, IsNoRepeater, IsRep, IsRepeater, IsUsable, is_arc, is_full, is_related, is_timed};
ghost use Rattle.lib_cells.specs.Units.{AreUnits};

use elmore::Rep;
use lib_cells::{
    CellBody, Pin, PinDir, Pins, Units, direction_of, given, name_of, reduces_to, says,
};
use lib_text::Group;
use std::alloc::Global;
use vg_num::Memory;
use vg_scan::{Name, Words};

/// A cell that is a repeater, its two pins, and what it does to a net.
#[derive(Drop)]
pub struct Repeater {
    pub cell: Name,
    pub input: Name,
    pub output: Name,
    pub rep: Rep,
}

/// Whether a timing group gives all four values.
fn is_full(units: Units, timing: &Group<'_>) -> bool
    requires { AreUnits units }
    ensures { result ≡ is_full units timing.now }
{
    given(timing, b"intrinsic_rise", units.times()).is_some()
        && given(timing, b"intrinsic_fall", units.times()).is_some()
        && given(timing, b"rise_resistance", units.resistances()).is_some()
        && given(timing, b"fall_resistance", units.resistances()).is_some()
}

/// Whether a value names this pin, and no other.
fn names_only(value: &[u8], input: &[u8]) -> bool
    ensures { result ≡ nat_lt 0 (length (words value.now)) && list_all (bytes_eq input.now) (words value.now) }
{
    let mut names = Words::new(value);
    !names.is_empty() && names.all(|name| input == name)
}

/// Whether a timing group names this pin as related, and no other.
fn is_related(input: &[u8], timing: &Group<'_>) -> bool
    ensures { result ≡ is_related input.now timing.now }
{
    match timing.value_in(b"related_pin") {
        None => false,
        Some(value) => names_only(value, input),
    }
}

/// Whether a timing group is the whole arc from this pin.
fn is_arc(units: Units, input: &[u8], timing: &Group<'_>) -> bool
    requires { AreUnits units }
    ensures { result ≡ is_arc units input.now timing.now }
{
    is_related(input, timing) && is_full(units, timing)
}

/// Whether a group has groups of this name.
fn has_groups(group: &Group<'_>, name: &[u8]) -> bool
    ensures { result ≡ nat_lt 0 (length (groups_in group.now name.now)) }
{
    group.groups(name).next().is_some()
}

/// Whether a pin has timing groups, and each of them is the whole arc from this pin.
fn is_timed(units: Units, input: &[u8], pin: &Group<'_>) -> bool
    requires { AreUnits units }
    ensures { result ≡ is_timed units input.now pin.now }
{
    has_groups(pin, b"timing")
        && pin
            .groups(b"timing")
            .all(|timing| is_arc(units, input, &timing))
}

/// Whether a cell has no bus, no bundle, and is not kept from use.
fn is_usable(cell: &Group<'_>) -> bool
    ensures { MatchBool result (IsUsable cell.now) (IsUsable cell.now → ⊥) }
{
    !has_groups(cell, b"bus") && !has_groups(cell, b"bundle") && !says(cell, b"dont_use", b"true")
}

/// Whether two pins are an input and an output, of different names.
fn are_two(input: &Pin<'_>, output: &Pin<'_>) -> bool
    ensures { MatchBool result (AreInOut input.now output.now) (AreInOut input.now output.now → ⊥) }
{
    input.group.direction == PinDir::Input
        && output.group.direction == PinDir::Output
        && input.name != output.name
}

/// The input and the output that these pins are, where they are one of each, of different names.
fn two_pins(pins: &Pins) -> Option<(Pin<'_>, Pin<'_>)>
    ensures { MatchOption result ((input output : PinInfo) → AreTwoPins pins.now input output → ⊥) (λ two.
        AreTwoPins pins.now two.0 two.1) }
{
    if pins.len() != 2 {
        return None;
    }
    let a = pins.get(0);
    let b = pins.get(1);
    if are_two(&a, &b) {
        return Some((a, b));
    }
    if are_two(&b, &a) { Some((b, a)) } else { None }
}

fn is_output(pin: &Group<'_>) -> bool
    ensures { result ≡ is_output (direction_of pin.now) }
{
    direction_of(pin) == PinDir::Output
}

/// The first pin group of a cell that is an output.
fn output_group<'a>(cell: &Group<'a>) -> Option<Group<'a>>
    ensures { result ≡ find (λ pin. is_output (direction_of pin)) (pin_groups cell.now) }
{
    cell.groups(b"pin").find(|pin| is_output(pin))
}

/// Whether the function of a pin inverts, where it is the input or its inversion.
fn inversion(pin: &Group<'_>, input: &[u8]) -> Option<bool>
    ensures { MatchOption result ((inverted : Bool) → IsFunction pin.now input.now inverted → ⊥)
        (IsFunction pin.now input.now) }
{
    reduces_to(pin.value_in(b"function")?, input)
}

/// Whether the output of a cell inverts, where it follows this input: by its function, and by its timing groups.
fn follows(units: Units, cell: &Group<'_>, input: &[u8]) -> Option<bool>
    requires { AreUnits units }
    ensures { MatchOption result ((inverted : Bool) → Follows units cell.now input.now inverted → ⊥)
        (Follows units cell.now input.now) }
{
    let output = output_group(cell)?;
    if !is_timed(units, input, &output) {
        return None;
    }
    inversion(&output, input)
}

/// Whether a delay (zs), a resistance (mΩ) and a cost (thousandths) are within what is computed with.
fn are_small(delay: u64, resistance: u64, cost: u64) -> bool
    ensures { MatchBool result (AreSmall delay resistance cost) (AreSmall delay resistance cost → ⊥) }
{
    delay <= 1_000_000_000_000_000_000 && resistance <= 1_000_000_000 && cost <= 1_000_000_000_000
}

/// What a cell does to a net between an input and an output, where it follows the input, and all is given and within
/// what is computed with.
fn rep_of(
    units: Units,
    cell: &Group<'_>,
    area: u64,
    input: &Pin<'_>,
    output: &Pin<'_>,
) -> Option<Rep>
    requires units { AreUnits units }
    requires area { area ≡ area_of cell.now }
    ensures { MatchOption result ((rep : RepSpec) → IsRep units cell.now input.now output.now rep → ⊥)
        (IsRep units cell.now input.now output.now) }
{
    let inverts = follows(units, cell, input.name)?;
    let cin = input.group.cap?;
    let (k, r) = output.group.drive?;
    if !are_small(k, r, area) {
        return None;
    }
    Some(Rep {
        inverts,
        cin,
        k,
        r,
        cost: area,
        limit: output.group.max,
    })
}

/// The two pins of a cell that is a repeater, and what it does to a net.
fn parts_of<'a>(
    units: Units,
    cell: &Group<'_>,
    body: &'a CellBody,
) -> Option<(Pin<'a>, Pin<'a>, Rep)>
    requires units { AreUnits units }
    requires body { body.now ≡ cell_body units cell.now }
    ensures { MatchOption result (IsNoRepeater units cell.now) (λ parts.
        ArePartsOf units cell.now parts.0 parts.1 parts.2) }
{
    if !is_usable(cell) {
        return None;
    }
    let (input, output) = two_pins(&body.pins)?;
    let rep = rep_of(units, cell, body.area, &input, &output)?;
    Some((input, output, rep))
}

/// The repeater that a cell is, if it is one.
pub(crate) fn repeater_of(
    alloc: Global,
    units: Units,
    cell: &Group<'_>,
    body: &CellBody,
) -> Result<Option<Repeater>, Memory>
    requires units { AreUnits units }
    requires body { body.now ≡ cell_body units cell.now }
    ensures { IfOk result (λ found. MatchOption found (IsNoRepeater units cell.now) (IsRepeater units cell.now)) }
{
    let Some((input, output, rep)) = parts_of(units, cell, body) else {
        return Ok(None);
    };
    Ok(Some(Repeater {
        cell: Name::from_bytes(alloc, name_of(cell))?,
        input: Name::from_bytes(alloc, input.name)?,
        output: Name::from_bytes(alloc, output.name)?,
        rep,
    }))
}
