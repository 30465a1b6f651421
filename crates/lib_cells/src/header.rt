//! The model and the units of a library.

ghost use Rattle.std.specs.Prelude.{◌≡◌, ◌≤◌, codes, None, [], option_to_list, IfSome, IfOk, IfErr};
ghost use Rattle.std.specs.Str.{bytes_eq};
ghost use Rattle.lib_cells.specs.FirstFlaws.{first_of};
ghost use Rattle.lib_cells.specs.Flaws.{IsFirst, header_flaws, load_flaws, model_flaws, time_flaws};
ghost use Rattle.lib_cells.specs.Units.{AreUnits, load_of, time_of, units_of};

use crate::fault::{LibFault, LibKind};
use crate::flaw::{Flaw, first_of};
use crate::units::{Units, load_power, time_power};
use lib_text::Group;

fn is_linear(model: &[u8]) -> bool
    ensures { result ≡ bytes_eq model.now (codes "generic_cmos") }
{
    model == b"generic_cmos".as_slice()
}

/// What is wrong with the model of delays.
fn model_flaw(library: &Group<'_>) -> Option<Flaw>
    ensures { option_to_list result ≡ model_flaws library.now }
{
    let attribute = library.attribute(b"delay_model")?;
    if is_linear(library.value(attribute)) {
        None
    } else {
        Some(Flaw::new(LibKind::NotLinear, attribute))
    }
}

/// What is wrong with the unit of times.
fn time_flaw(library: &Group<'_>) -> Option<Flaw>
    ensures { option_to_list result ≡ time_flaws library.now }
{
    let attribute = library.attribute(b"time_unit")?;
    match time_power(library.value(attribute)) {
        Some(_) => None,
        None => Some(Flaw::new(LibKind::Unit, attribute)),
    }
}

/// What is wrong with the unit of loads.
fn load_flaw(library: &Group<'_>) -> Option<Flaw>
    ensures { option_to_list result ≡ load_flaws library.now }
{
    let Some(attribute) = library.complex_attribute(b"capacitive_load_unit") else {
        return Some(Flaw::new(LibKind::Unit, library.head()));
    };
    match load_power(library.list(attribute)) {
        Some(_) => None,
        None => Some(Flaw::new(LibKind::Unit, attribute)),
    }
}

/// The first flaw of a library's model and units.
#[tactic(auto, using(crate::proofs::FlawLemmas::first_append))]
fn first_in_header(bytes: &[u8], library: &Group<'_>) -> Option<Flaw>
    ensures { result ≡ first_of bytes.now None (header_flaws library.now) }
{
    let first = first_of(bytes, None, model_flaw(library));
    let first = first_of(bytes, first, time_flaw(library));
    first_of(bytes, first, load_flaw(library))
}

/// The power of ten of the unit of times in picoseconds; without one the unit is a nanosecond.
fn time_of(library: &Group<'_>) -> Option<u8>
    ensures power { result ≡ time_of library.now }
    ensures small { IfSome result (λ power. power ≤ 3) }
{
    match library.value_in(b"time_unit") {
        Some(text) => time_power(text),
        None => Some(3),
    }
}

/// The power of ten of the unit of loads in femtofarads.
fn load_of(library: &Group<'_>) -> Option<u8>
    ensures power { result ≡ load_of library.now }
    ensures small { IfSome result (λ power. power ≤ 6) }
{
    let attribute = library.complex_attribute(b"capacitive_load_unit")?;
    load_power(library.list(attribute))
}

/// The units of a library, with 0 for the power of one that its attribute does not give.
fn units_of(library: &Group<'_>) -> Units
    ensures units { result ≡ units_of library.now }
    ensures small { AreUnits result }
{
    Units {
        time: time_of(library).unwrap_or(0),
        load: load_of(library).unwrap_or(0),
    }
}

/// The units of a library, of a text of these bytes; or the first fault of its model and its units: `NotLinear` where
/// it names another model than the linear one, `Unit` where it gives no unit of loads, or a unit that is none. Neither
/// the model nor the unit of times need be given: the unit is then a nanosecond.
#[tactic(auto, using(crate::proofs::OrderLemmas::first_flaw, crate::proofs::OrderLemmas::no_flaw))]
pub fn read_units(bytes: &[u8], library: &Group<'_>) -> Result<Units, LibFault>
    ensures units { IfOk result (λ units. units ≡ units_of library.now) }
    ensures small { IfOk result AreUnits }
    ensures sound { IfOk result (λ _. header_flaws library.now ≡ []) }
    ensures fault { IfErr result (IsFirst bytes.now (header_flaws library.now)) }
{
    match first_in_header(bytes, library) {
        None => Ok(units_of(library)),
        Some(flaw) => Err(flaw.to_fault(bytes)),
    }
}
