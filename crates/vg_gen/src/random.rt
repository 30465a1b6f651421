//! Random numbers.
ghost use Rattle.std.specs.Prelude.{◌≡◌};
ghost use Rattle.vg_gen.specs.Random.{next_number};

const MULTIPLIER: u64 = 1_103_515_245;

const INCREMENT: u64 = 12_345;

const MODULUS: u64 = 1 << 31;

/// The random number behind this one.
pub(crate) fn next_number(x: u32) -> u32
    ensures { result ≡ next_number x }
{
    ((u64::from(x) * MULTIPLIER + INCREMENT) % MODULUS) as u32
}
