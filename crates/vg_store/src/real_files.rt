//! The files of the system.
ghost use Rattle.std.specs.Prelude.{◌≡◌, ◌+◌, ◌^◌, ◌<◌, ◌≤◌, ℕ, List, [], length, take, true, false, Option, None, IsNone, is_some, IfOk, IfSome, OnOk, OnErr};
ghost use Rattle.std.specs.Io.KnownBytes.{ReadConsumes, WriteAppends};
ghost use Rattle.vg_store.specs.Causes.{HasCause};
ghost use Rattle.vg_store.specs.RealFiles.{state_of};
ghost use Rattle.vg_store.specs.States.{KeepsReading, KeepsWriting};
ghost use Rattle.vg_store.specs.Writing.{DraftGains, DraftGainsPrefix};

use crate::files::{Failed, Files};
use crate::pieces::{read_piece, write_piece};
use crate::places::{Draft, hand_on, open_draft, publish_draft, remove_draft, remove_drafts};
use std::alloc::Global;
use std::fs;

/// The files of the system, by their paths. They tell no content and no name. Each error that the system gives is
/// counted as a fault, and so is a write that takes nothing of a piece that is not empty. A call that a signal
/// interrupts is made again.
///
/// A draft is a file beside the one that it replaces, named `.vginsert-N`. It is removed once it is dropped; only a run
/// that is killed leaves it.
pub struct RealFiles<'a, R: std::rt::Files> {
    rt: &'a R,
    alloc: Global,
    reader: Option<R::File>,
    taken: u64,
    read_faults: u64,
    writer: Option<R::File>,
    // The draft that is being written: none where a file is written in place.
    draft: Option<Draft>,
    waiting: Vec<Option<Draft>>,
    write_faults: u64,
}

impl<R: std::rt::Files> Drop for RealFiles<'_, R> {
    fn drop(self) {
        let RealFiles {
            rt,
            alloc: _,
            reader: _,
            taken: _,
            read_faults: _,
            writer: _,
            draft,
            waiting,
            write_faults: _,
        } = self;
        remove_draft(rt, draft.as_ref());
        remove_drafts(rt, &waiting);
    }
}

impl<'a, R: std::rt::Files> RealFiles<'a, R> {
    /// The files that this runtime reaches. None is open or created. It takes no memory.
    pub fn new(rt: &'a R, alloc: Global) -> RealFiles<'a, R>
        ensures shut { IsNone result.reader × IsNone result.writer }
        ensures none_waits { (state_of result).drafts ≡ [] }
        ensures faults { (result.read_faults ≡ 0) × (result.write_faults ≡ 0) }
    {
        RealFiles {
            rt,
            alloc,
            reader: None,
            taken: 0,
            read_faults: 0,
            writer: None,
            draft: None,
            waiting: Vec::new(alloc),
            write_faults: 0,
        }
    }

    // Drops the draft that is being written, and removes its file.
    fn drop_draft(&mut self)
        ensures shut { is_some self.new.writer ≡ false }
        ensures same_waiting { self.new.waiting.items ≡ self.old.waiting.items }
        ensures same_faults { self.new.write_faults ≡ self.old.write_faults }
        ensures reading { KeepsReading (state_of self.old) (state_of self.new) }
    {
        self.writer = None;
        let draft = self.draft.take();
        remove_draft(self.rt, draft.as_ref());
    }
}

impl<R: std::rt::Files> Files for RealFiles<'_, R> {
    ghost state = { λ files. state_of files };

    /// Opens the file of this path. After `Failed` no file is open.
    fn open(&mut self, name: &str) -> Result<(), Failed> {
        self.reader = None;
        match fs::open(self.rt, name) {
            Ok(file) => {
                self.reader = Some(file);
                self.taken = 0;
                Ok(())
            }
            Err(_) => {
                self.read_faults = self.read_faults.saturating_add(1);
                Err(Failed)
            }
        }
    }

    /// One read of the open file.
    fn next(&mut self, buf: &mut [u8]) -> Result<usize, Failed>
        requires some_room { 0 < length buf.old }
        requires is_open { is_some self.old.reader ≡ true }
        requires countable { self.old.taken + length buf.old < 2 ^ 64 }
        ensures count { IfOk result (λ count. (count ≤ length buf.old) × (self.new.taken ≡ self.old.taken + count)) }
        ensures unmoved { OnErr result (self.new.taken ≡ self.old.taken) }
        ensures still_open { is_some self.new.reader ≡ true }
        ensures cause { HasCause self.old.read_faults self.new.read_faults result }
        ensures writing { KeepsWriting (state_of self.old) (state_of self.new) }

        // Neither bytes nor names are told, so the trait's clauses on them claim nothing.
        ensures bytes { IfOk result (λ _. Unit {0}) }
        ensures blamed { OnErr result (Unit {0}) }
        ensures same_blame { OnOk result (◌≡◌ {A = Option (List ℕ)} None None) }

        // What the system's file is known to have left shrank by the bytes that were taken, and after a fault by none.
        ensures reached { IfSome self.old.reader (λ a.
            IfSome self.new.reader (λ b. ReadConsumes (R.File.remaining a) (R.File.remaining b) result buf.new)) }
    {
        let Some(file) = &mut self.reader else {
            unreachable!();
        };
        match read_piece(file, buf) {
            Ok(count) => {
                self.taken += count as u64;
                Ok(count)
            }
            Err(_) => {
                self.read_faults = self.read_faults.saturating_add(1);
                Err(Failed)
            }
        }
    }

    /// Begins a draft beside the file of this path: a new file of the same folder, with the permissions of the file
    /// that it replaces. Symbolic links are followed, and stay. What is no regular file, as a device or a pipe, is
    /// opened and written in place. After `Failed` no draft is being written. It fails also where the file may not be
    /// written, where its folder may not, where a draft that waits is of the same file, and when out of memory.
    fn create(&mut self, name: &str) -> Result<(), Failed> {
        self.drop_draft();
        match open_draft(self.rt, self.alloc, &self.waiting, name) {
            Ok((file, draft)) => {
                self.writer = Some(file);
                self.draft = draft;
                Ok(())
            }
            Err(failed) => {
                self.write_faults = self.write_faults.saturating_add(1);
                Err(failed)
            }
        }
    }

    /// One write of a piece that is not empty.
    fn put(&mut self, bytes: &[u8]) -> Result<usize, Failed>
        requires is_created { is_some self.old.writer ≡ true }
        ensures bound { IfOk result (λ count. (count ≤ length bytes.now) × (0 < length bytes.now → 0 < count)) }
        ensures still_writing { is_some self.new.writer ≡ true }
        ensures cause { HasCause self.old.write_faults self.new.write_faults result }
        ensures reading { KeepsReading (state_of self.old) (state_of self.new) }

        // Neither bytes nor names are told, so these clauses of the trait claim nothing.
        ensures gained { IfOk result (λ count.
            DraftGains (state_of self.old) (state_of self.new) (take count bytes.now)) }
        ensures prefix { OnErr result (DraftGainsPrefix (state_of self.old) (state_of self.new) bytes.now) }
        ensures blamed { OnErr result (Unit {0}) }
        ensures same_blame { OnOk result (◌≡◌ {A = Option (List ℕ)} None None) }

        // What the system's file is known to hold grew by the bytes that were taken, and after a fault by none.
        ensures reached { IfSome self.old.writer (λ a.
            IfSome self.new.writer (λ b. WriteAppends (R.File.contents a) (R.File.contents b) result bytes.now)) }
    {
        if bytes.is_empty() {
            return Ok(0);
        }
        let Some(file) = &mut self.writer else {
            unreachable!();
        };
        match write_piece(file, bytes) {
            Ok(count) if 0 < count => Ok(count),
            _ => {
                self.write_faults = self.write_faults.saturating_add(1);
                Err(Failed)
            }
        }
    }

    /// Hands on to the system what was written, for good, and closes the file. After `Failed` the draft's file is
    /// removed.
    fn finish(&mut self) -> Result<(), Failed> {
        let Some(file) = self.writer.take() else {
            unreachable!();
        };
        let draft = self.draft.take();
        if hand_on(file).is_err() {
            remove_draft(self.rt, draft.as_ref());
            self.write_faults = self.write_faults.saturating_add(1);
            return Err(Failed);
        }
        if let Err(failed) = self.waiting.push(draft) {
            remove_draft(self.rt, failed.value.as_ref());
            self.write_faults = self.write_faults.saturating_add(1);
            return Err(Failed);
        }
        Ok(())
    }

    /// Renames the oldest draft to the name of its file, which it replaces at once. After `Failed` the files of all
    /// drafts are removed.
    fn publish(&mut self) -> Result<(), Failed> {
        let draft = self.waiting.remove(0);
        if publish_draft(self.rt, draft.as_ref()).is_err() {
            remove_draft(self.rt, draft.as_ref());
            remove_drafts(self.rt, &self.waiting);
            self.waiting.clear();
            self.write_faults = self.write_faults.saturating_add(1);
            return Err(Failed);
        }
        Ok(())
    }

    /// Removes the files of all drafts.
    fn discard(&mut self) {
        self.drop_draft();
        remove_drafts(self.rt, &self.waiting);
        self.waiting.clear();
    }
}
