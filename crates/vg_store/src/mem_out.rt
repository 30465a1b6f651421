//! An output in memory.
ghost use Rattle.std.specs.Prelude.{◌≡◌, ◌↔◌, ◌⊎◌, ◌+◌, ◌-◌, ◌^◌, ◌<◌, ◌≤◌, ◌++◌, min, List, length, take, [], Some, Contains, IfOk, IsErr, OnOk, OnErr};
ghost use Rattle.vg_store.specs.Causes.{HasCause};
ghost use Rattle.vg_store.specs.Writing.{Gains, GainsPrefix};

use crate::calls::Calls;
use crate::files::Failed;
use crate::output::Out;
use std::alloc::Global;
use vg_num::Memory;

/// An output in memory, which tells what was written. Calls of given numbers fail, and a call takes no more bytes
/// than a given number.
#[derive(Drop)]
pub struct MemOut {
    bytes: Vec<u8>,
    chunk: usize,
    calls: Calls,
    faults: u64,
    ghost takes_some: { 1 ≤ chunk },
}

impl MemOut {
    ghost use Rattle.vg_store.specs.MemOut.{written_to, room_of, chunk_of, calls_of, fails_of, faults_of};

    /// Nothing was written. A call of `put` takes at most `chunk` bytes. Each call of `Out` has a number, from 0 on,
    /// and those whose number stands in `fails` fail. The count of calls stands still at `u64::MAX`, and so does the
    /// count of faults.
    ///
    /// `Memory`: there was no room for the numbers.
    pub fn new(alloc: Global, chunk: usize, fails: &[u64]) -> Result<MemOut, Memory>
        requires { 1 ≤ chunk }
        ensures empty { IfOk result (λ out. written_to out ≡ []) }
        ensures chunk { IfOk result (λ out. chunk_of out ≡ chunk) }
        ensures fails { IfOk result (λ out. fails_of out ≡ fails.now) }
        ensures calls { IfOk result (λ out. calls_of out ≡ 0) }
        ensures faults { IfOk result (λ out. faults_of out ≡ 0) }
    {
        Ok(MemOut {
            bytes: Vec::new(alloc),
            chunk,
            calls: Calls::new(alloc, fails)?,
            faults: 0,
        })
    }

    /// What was written.
    pub fn as_bytes(&self) -> &[u8]
        ensures { result.now ≡ written_to self.now }
    {
        &self.bytes
    }
}

impl Out for MemOut {
    ghost use Rattle.vg_store.specs.MemOut.{state_of, written_to, room_of, chunk_of, calls_of, fails_of, faults_of};

    ghost state = { λ out. state_of out };

    /// Appends the first bytes of a piece: as many as the chunk and the piece allow. It fails where the call's
    /// number stands in the list, and when out of memory. Then nothing is appended.
    fn put(&mut self, bytes: &[u8]) -> Result<usize, Failed>
        ensures bound { IfOk result (λ count. (count ≤ length bytes.now) × (0 < length bytes.now → 0 < count)) }
        ensures gained { IfOk result (λ count. Gains (state_of self.old) (state_of self.new) (take count bytes.now)) }
        ensures prefix { OnErr result (GainsPrefix (state_of self.old) (state_of self.new) bytes.now) }
        ensures cause { HasCause (faults_of self.old) (faults_of self.new) result }

        ensures appended { IfOk result (λ count. written_to self.new ≡ written_to self.old ++ take count bytes.now) }
        ensures moved { IfOk result (λ count. count ≡ min (chunk_of self.old) (length bytes.now)) }
        ensures nothing { OnErr result (written_to self.new ≡ written_to self.old) }
        ensures listed { Contains (fails_of self.old) (calls_of self.old) → IsErr result }
        ensures failed { OnErr result (Contains (fails_of self.old) (calls_of self.old)
            ⊎ (room_of self.old < min (chunk_of self.old) (length bytes.now))) }
        ensures counted { calls_of self.new ≡ min (calls_of self.old + 1) (2 ^ 64 - 1) }
        ensures ok_faults { OnOk result (faults_of self.new ≡ faults_of self.old) }
        ensures err_faults { OnErr result (faults_of self.new ≡ min (faults_of self.old + 1) (2 ^ 64 - 1)) }
        ensures same_fails { fails_of self.new ≡ fails_of self.old }
        ensures same_chunk { chunk_of self.new ≡ chunk_of self.old }
    {
        let count = self.chunk.min(bytes.len());
        if self.calls.count_call() || self.bytes.extend_from_slice(&bytes[..count]).is_err() {
            self.faults = self.faults.saturating_add(1);
            return Err(Failed);
        }
        Ok(count)
    }

    /// Ends the writing for now. It fails exactly where the call's number stands in the list.
    fn finish(&mut self) -> Result<(), Failed>
        ensures kept { (state_of self.new).written ≡ (state_of self.old).written }
        ensures cause { HasCause (faults_of self.old) (faults_of self.new) result }

        ensures listed { IsErr result ↔ Contains (fails_of self.old) (calls_of self.old) }
        ensures counted { calls_of self.new ≡ min (calls_of self.old + 1) (2 ^ 64 - 1) }
        ensures ok_faults { OnOk result (faults_of self.new ≡ faults_of self.old) }
        ensures err_faults { OnErr result (faults_of self.new ≡ min (faults_of self.old + 1) (2 ^ 64 - 1)) }
        ensures same_fails { fails_of self.new ≡ fails_of self.old }
        ensures same_chunk { chunk_of self.new ≡ chunk_of self.old }
    {
        if self.calls.count_call() {
            self.faults = self.faults.saturating_add(1);
            return Err(Failed);
        }
        Ok(())
    }
}
