//! An output of the system.
ghost use Rattle.std.specs.Prelude.{◌≡◌, ℕ, ◌<◌, ◌≤◌, List, length, take, Option, None, IfOk, OnErr};
ghost use Rattle.std.specs.Io.KnownBytes.{Keeps, WriteAppends};
ghost use Rattle.vg_store.specs.Causes.{HasCause};
ghost use Rattle.vg_store.specs.Writing.{Gains, GainsPrefix};

use crate::files::Failed;
use crate::output::Out;
use crate::pieces::write_piece;
use std::io::Write;

/// An output over a writer of std, as a file. It does not tell what was written. Each error of the writer is counted
/// as a fault, and so is a write that takes nothing of a piece that is not empty.
#[derive(Drop)]
pub struct RealOut<W: Write + Drop> {
    to: W,
    faults: u64,
}

impl<W: Write + Drop> RealOut<W> {
    /// An output over this writer. It takes no memory.
    pub fn new(to: W) -> RealOut<W>
        ensures writer { result.to ≡ to }
        ensures faults { result.faults ≡ 0 }
    {
        RealOut { to, faults: 0 }
    }
}

impl<W: Write + Drop> Out for RealOut<W> {
    ghost state = { λ out. record { written = None; faults = out.faults } };

    /// One write of a piece that is not empty. One that a signal interrupts is made again.
    fn put(&mut self, bytes: &[u8]) -> Result<usize, Failed>
        ensures bound { IfOk result (λ count. (count ≤ length bytes.now) × (0 < length bytes.now → 0 < count)) }
        // What was written is not told, so the trait's clauses on it claim nothing.
        ensures gained { IfOk result (λ _. Unit {0}) }
        ensures prefix { OnErr result ((count : ℕ) × (count ≤ length bytes.now) × Unit {0}) }
        ensures cause { HasCause self.old.faults self.new.faults result }

        // What the writer is known to hold grew by the bytes that were taken, and after a fault by none.
        ensures reached { WriteAppends (W.contents self.old.to) (W.contents self.new.to) result bytes.now }
    {
        if bytes.is_empty() {
            return Ok(0);
        }
        match write_piece(&mut self.to, bytes) {
            Ok(count) if 0 < count => Ok(count),
            _ => {
                self.faults = self.faults.saturating_add(1);
                Err(Failed)
            }
        }
    }

    /// Flushes the writer.
    fn finish(&mut self) -> Result<(), Failed>
        ensures kept { ◌≡◌ {A = Option (List ℕ)} None None }
        ensures cause { HasCause self.old.faults self.new.faults result }

        // What the writer is known to hold stays.
        ensures reached { Keeps (W.contents self.old.to) (W.contents self.new.to) }
    {
        match self.to.flush() {
            Ok(()) => Ok(()),
            Err(_) => {
                self.faults = self.faults.saturating_add(1);
                Err(Failed)
            }
        }
    }
}
