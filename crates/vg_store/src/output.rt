//! An output that may take less than it is given, and fail.
ghost use Rattle.std.specs.Prelude.{◌≡◌, ℕ, ◌<◌, ◌≤◌, List, length, take, Option, IfOk, OnOk, OnErr};
ghost use Rattle.vg_store.specs.Causes.{HasCause};
ghost use Rattle.vg_store.specs.Writing.{OutState, Gains, GainsPrefix};

use crate::files::Failed;

/// An output of bytes.
pub trait Out {
    /// What contracts see of the output. The count of faults never falls.
    ghost state: { Self → OutState };

    /// Appends the first bytes of a piece, and says how many: of a piece that is not empty at least one. After
    /// `Failed` a prefix of the piece was written, possibly an empty one.
    fn put(&mut self, bytes: &[u8]) -> Result<usize, Failed>
        ensures bound { IfOk result (λ count. (count ≤ length bytes.now) × (0 < length bytes.now → 0 < count)) }
        ensures gained { IfOk result (λ count. Gains (state self.old) (state self.new) (take count bytes.now)) }
        ensures prefix { OnErr result (GainsPrefix (state self.old) (state self.new) bytes.now) }
        ensures cause { HasCause (state self.old).faults (state self.new).faults result };

    /// Hands on to the system, for good, all that was written. After `Failed` it may be lost. What was written stays.
    fn finish(&mut self) -> Result<(), Failed>
        ensures kept { (state self.new).written ≡ (state self.old).written }
        ensures cause { HasCause (state self.old).faults (state self.new).faults result };
}

/// Writes all of the bytes, in as many calls of `put` as it takes. At the first `Failed` it stops and answers it:
/// a prefix of the bytes was written then. It takes no memory.
pub fn put_all<O: Out>(out: &mut O, bytes: &[u8]) -> Result<(), Failed>
    ensures all { OnOk result (Gains (O.state out.old) (O.state out.new) bytes.now) }
    ensures prefix { OnErr result (GainsPrefix (O.state out.old) (O.state out.new) bytes.now) }
    ensures cause { HasCause (O.state out.old).faults (O.state out.new).faults result }
{
    let mut done = 0;
    'pieces: while done < bytes.len() {
        done += out.put(&bytes[done..])?;
    }
    Ok(())
}
