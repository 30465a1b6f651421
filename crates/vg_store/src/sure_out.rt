//! An output that never fails.
ghost use Rattle.std.specs.Prelude.{◌≡◌, ℕ, ◌<◌, ◌≤◌, length, IfOk, IsOk, OnErr};
ghost use Rattle.vg_store.specs.Causes.{HasCause};

use crate::files::Failed;
use crate::output::Out;

/// An output that takes all that it is given, and drops it. No call fails, so its count of faults is 0 for ever. It
/// does not tell what was written, and takes no memory.
#[derive(Clone, Copy, Debug, PartialEq, Eq)]
pub struct SureOut;

impl SureOut {
    /// An output. It takes no memory.
    pub fn new() -> SureOut {
        SureOut
    }
}

impl Out for SureOut {
    ghost use Rattle.vg_store.specs.SureOut.{state_of};

    ghost state = { λ out. state_of out };

    /// Takes the whole piece, and drops it.
    fn put(&mut self, bytes: &[u8]) -> Result<usize, Failed>
        ensures bound { IfOk result (λ count. (count ≤ length bytes.now) × (0 < length bytes.now → 0 < count)) }
        // What was written is not told, so the trait's clauses on it claim nothing.
        ensures gained { IfOk result (λ _. Unit {0}) }
        ensures prefix { OnErr result ((count : ℕ) × (count ≤ length bytes.now) × Unit {0}) }
        ensures cause { HasCause 0 0 result }

        ensures sure { IsOk result }
        ensures whole { IfOk result (λ count. count ≡ length bytes.now) }
    {
        Ok(bytes.len())
    }

    /// There is nothing to hand on.
    fn finish(&mut self) -> Result<(), Failed>
        ensures kept { (state_of self.new).written ≡ (state_of self.old).written }
        ensures cause { HasCause 0 0 result }

        ensures sure { IsOk result }
    {
        Ok(())
    }
}
