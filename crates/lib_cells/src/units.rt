//! The units of a library.

ghost use Rattle.std.specs.Prelude.{◌≡◌, ◌≤◌, IfSome};
ghost use Rattle.std.specs.Str.{str_eq_ignore_ascii_case};
ghost use Rattle.lib_cells.specs.Units.{time_power, power_of, number_power, farad_power, load_power, time_places, capacitance_places, resistance_places, AreUnits};

use lib_text::two_arguments;
use vg_num::read_scaled;

/// The powers of ten of a library's units: of its times in picoseconds, and of its loads in femtofarads.
#[derive(Clone, Copy, Debug, PartialEq, Eq, Drop)]
pub struct Units {
    pub time: u8,
    pub load: u8,
}

impl Units {
    /// The decimal places at which times are read, in zeptoseconds.
    pub fn times(self) -> u32
        ensures places { result ≡ time_places self }
        ensures within { AreUnits self → result ≤ 12 }
    {
        9 + u32::from(self.time)
    }

    /// The decimal places at which capacitances are read, in attofarads.
    pub fn capacitances(self) -> u32
        ensures places { result ≡ capacitance_places self }
        ensures within { AreUnits self → result ≤ 9 }
    {
        3 + u32::from(self.load)
    }

    /// The decimal places at which resistances are read, in milliohms.
    pub fn resistances(self) -> u32
        ensures places { result ≡ resistance_places self }
        ensures within { AreUnits self → result ≤ 9 }
    {
        (6 + u32::from(self.time)).saturating_sub(u32::from(self.load))
    }
}

fn is_like(text: &[u8], unit: &[u8]) -> bool
    ensures { result ≡ str_eq_ignore_ascii_case text.now unit.now }
{
    text.eq_ignore_ascii_case(unit)
}

/// The power of ten of a unit of times in picoseconds: `1ps`, `10ps`, `100ps` or `1ns`, in letters of either case.
/// `None`: the text is none of these.
#[tactic(auto, unfolding(crate::specs::Units::time_power))]
pub fn time_power(text: &[u8]) -> Option<u8>
    ensures power { result ≡ time_power text.now }
    ensures small { IfSome result (λ power. power ≤ 3) }
{
    if is_like(text, b"1ps") {
        return Some(0);
    }
    if is_like(text, b"10ps") {
        return Some(1);
    }
    if is_like(text, b"100ps") {
        return Some(2);
    }
    if is_like(text, b"1ns") { Some(3) } else { None }
}

fn power_of(thousandths: u64) -> Option<u8>
    ensures power { result ≡ power_of thousandths }
    ensures small { IfSome result (λ power. power ≤ 3) }
{
    match thousandths {
        1_000 => Some(0),
        10_000 => Some(1),
        100_000 => Some(2),
        1_000_000 => Some(3),
        _ => None,
    }
}

#[tactic(auto, unfolding(crate::specs::Units::number_power))]
fn number_power(text: &[u8]) -> Option<u8>
    ensures power { result ≡ number_power text.now }
    ensures small { IfSome result (λ power. power ≤ 3) }
{
    match read_scaled(text, 3) {
        Ok(thousandths) => power_of(thousandths),
        Err(_) => None,
    }
}

#[tactic(auto, unfolding(crate::specs::Units::farad_power))]
fn farad_power(text: &[u8]) -> Option<u8>
    ensures power { result ≡ farad_power text.now }
    ensures small { IfSome result (λ power. power ≤ 3) }
{
    if is_like(text, b"ff") {
        return Some(0);
    }
    if is_like(text, b"pf") { Some(3) } else { None }
}

/// The power of ten of a unit of loads in femtofarads, by the arguments that stand between the brackets: a number that
/// is 1, 10, 100 or 1000, and `ff` or `pf`, in letters of either case. `None`: they are not two, or no such unit.
pub fn load_power(arguments: &[u8]) -> Option<u8>
    ensures power { result ≡ load_power arguments.now }
    ensures small { IfSome result (λ power. power ≤ 6) }
{
    let (number, unit) = two_arguments(arguments)?;
    let power = number_power(number)?;
    let more = farad_power(unit)?;
    Some(power + more)
}
