//! Files that never fail.
ghost use Rattle.std.specs.Prelude.{◌≡◌, ◌≢◌, ◌↔◌, ℕ, ◌+◌, ◌^◌, ◌<◌, ◌≤◌, min, List, length, take, [], ◌∷◌, ◌++◌, Bool, true, false, Option, Some, None, IfOk, IfSome, IsOk, OnOk, OnErr};
ghost use Rattle.std.specs.List.{All};
ghost use Rattle.arrayvec.specs.ArrayVec.{array_vec_len};
ghost use Rattle.indexmap.specs.IndexMap.{index_map_len};
ghost use Rattle.vg_store.specs.Causes.{HasCause};
ghost use Rattle.vg_store.specs.Reading.{Begins, IsNextPiece, read_file};
ghost use Rattle.vg_store.specs.States.{Draft, KeepsReading, KeepsWriting, first_name, this_draft};
ghost use Rattle.vg_store.specs.Writing.{BeginsWriting, DraftGains, DraftGainsPrefix, Publishes};

use crate::contents::{Told, replace_at};
use crate::files::{Failed, Files};
use arrayvec::ArrayVec;
use indexmap::IndexMap;
use std::alloc::Global;
use vg_num::Memory;

/// How many drafts can wait.
const MOST_DRAFTS: usize = 8;

/// Files to read, in memory, whose calls never fail, but for `create` where `MOST_DRAFTS` drafts wait. What is written
/// is dropped, and a file that was added is told no longer once a draft of it is published. Each file that is not told
/// reads as an empty one.
///
/// No call of `Files` takes memory.
#[derive(Drop)]
pub struct SureFiles {
    alloc: Global,
    files: IndexMap<String, Told>,
    source: Option<usize>,
    place: usize,
    reading: bool,
    target: Option<usize>,
    writing: bool,
    waiting: ArrayVec<Option<usize>, MOST_DRAFTS>,
    write_faults: u64,
    ghost source_stands: { (n : ℕ) → source ≡ Some n → n < index_map_len files },
    ghost target_stands: { (n : ℕ) → target ≡ Some n → n < index_map_len files },
    ghost waiting_stand: { All (λ w. (n : ℕ) → w ≡ Some n → n < index_map_len files) waiting.items },
    ghost has_room: { writing ≡ true → array_vec_len waiting < 8 },
}

impl SureFiles {
    ghost use Rattle.vg_store.specs.SureFiles.{left_of, state_of, told_in};

    /// No files. It takes no memory.
    pub fn new(alloc: Global) -> SureFiles
        ensures empty { (name : List ℕ) → told_in result name ≡ None }
        ensures shut { ((state_of result).reading ≡ false) × ((state_of result).writing ≡ false) }
        ensures none_waits { (state_of result).drafts ≡ [] }
        ensures faults { (state_of result).write_faults ≡ 0 }
    {
        SureFiles {
            alloc,
            files: IndexMap::new(alloc),
            source: None,
            place: 0,
            reading: false,
            target: None,
            writing: false,
            waiting: ArrayVec::new(),
            write_faults: 0,
        }
    }

    /// Puts a file there to read, in place of one of that name.
    ///
    /// `Memory`: there was no room for it. The files are as before.
    pub fn add(&mut self, name: &str, bytes: &[u8]) -> Result<(), Memory>
        ensures added { OnOk result (told_in self.new name.now ≡ Some bytes.now) }
        ensures others { (other : List ℕ) → other ≢ name.now
            → told_in self.new other ≡ told_in self.old other }
        ensures failed { OnErr result ((file : List ℕ) → told_in self.new file ≡ told_in self.old file) }
        ensures reading { KeepsReading (state_of self.old) (state_of self.new) }
        ensures writing { KeepsWriting (state_of self.old) (state_of self.new) }
    {
        let bytes = bytes.to_vec(self.alloc)?;
        let name = String::from_str(self.alloc, name)?;
        self.files.insert(name, Some(bytes))?;
        Ok(())
    }

    // What was not taken yet of the file that is read.
    fn rest(&self) -> &[u8]
        ensures { result.now ≡ left_of self.now }
    {
        let Some(source) = self.source else {
            return &[];
        };
        let Some((_, file)) = self.files.get_index(source) else {
            return &[];
        };
        let Some(bytes) = file else {
            return &[];
        };
        let bytes = bytes.as_slice();
        &bytes[self.place.min(bytes.len())..]
    }
}

impl Files for SureFiles {
    ghost use Rattle.vg_store.specs.SureFiles.{left_of, state_of, told_in};

    ghost state = { λ files. state_of files };

    /// Begins to read a file at its first byte.
    fn open(&mut self, name: &str) -> Result<(), Failed>
        ensures begun { OnOk result (Begins name.now (state_of self.new)) }
        ensures shut { OnErr result ((state_of self.new).reading ≡ false) }
        ensures kept { (file : List ℕ) → told_in self.new file ≡ told_in self.old file }
        ensures cause { HasCause (state_of self.old).read_faults (state_of self.new).read_faults result }
        ensures blamed { OnErr result (IfSome (state_of self.new).read_blame (λ blamed. blamed ≡ name.now)) }
        ensures same_blame { OnOk result ((state_of self.new).read_blame ≡ (state_of self.old).read_blame) }
        ensures writing { KeepsWriting (state_of self.old) (state_of self.new) }

        ensures sure { IsOk result }
        ensures named { read_file (state_of self.new) ≡ told_in self.old name.now }
    {
        self.source = self.files.get_index_of(name);
        self.place = 0;
        self.reading = true;
        Ok(())
    }

    /// Takes the next bytes of the open file: as many as the buffer and the file's rest allow.
    fn next(&mut self, buf: &mut [u8]) -> Result<usize, Failed>
        requires some_room { 0 < length buf.old }
        requires is_open { (state_of self.old).reading ≡ true }
        requires countable { (state_of self.old).taken + length buf.old < 2 ^ 64 }
        ensures count { IfOk result (λ count. (count ≤ length buf.old)
            × ((state_of self.new).taken ≡ (state_of self.old).taken + count)) }
        ensures bytes { IfOk result (λ count.
            IfSome (read_file (state_of self.old)) (λ file. IsNextPiece file (state_of self.old).taken count buf.new)) }
        ensures unmoved { OnErr result ((state_of self.new).taken ≡ (state_of self.old).taken) }
        ensures still_open { (state_of self.new).reading ≡ true }
        ensures same_source { (state_of self.new).source ≡ (state_of self.old).source }
        ensures kept { (file : List ℕ) → told_in self.new file ≡ told_in self.old file }
        ensures cause { HasCause (state_of self.old).read_faults (state_of self.new).read_faults result }
        ensures blamed { OnErr result
            (IfSome (state_of self.new).read_blame (λ blamed. (state_of self.old).source ≡ Some blamed)) }
        ensures same_blame { OnOk result ((state_of self.new).read_blame ≡ (state_of self.old).read_blame) }
        ensures writing { KeepsWriting (state_of self.old) (state_of self.new) }

        ensures sure { IsOk result }
        ensures moved { IfOk result (λ count. count ≡ min (length buf.old) (length (left_of self.old))) }
    {
        let rest = self.rest();
        let count = buf.len().min(rest.len());
        buf[..count].copy_from_slice(&rest[..count]);
        self.place += count;
        Ok(count)
    }

    /// Begins a draft. It fails exactly where `MOST_DRAFTS` drafts wait.
    fn create(&mut self, name: &str) -> Result<(), Failed>
        ensures begun { OnOk result (BeginsWriting name.now (state_of self.new)) }
        ensures shut { OnErr result ((state_of self.new).writing ≡ false) }
        ensures kept { (file : List ℕ) → told_in self.new file ≡ told_in self.old file }
        ensures same_drafts { (state_of self.new).drafts ≡ (state_of self.old).drafts }
        ensures cause { HasCause (state_of self.old).write_faults (state_of self.new).write_faults result }
        ensures blamed { OnErr result (IfSome (state_of self.new).write_blame (λ blamed. blamed ≡ name.now)) }
        ensures same_blame { OnOk result ((state_of self.new).write_blame ≡ (state_of self.old).write_blame) }
        ensures reading { KeepsReading (state_of self.old) (state_of self.new) }

        ensures sure { IsOk result ↔ (length (state_of self.old).drafts < 8) }
        ensures same_faults { OnOk result ((state_of self.new).write_faults ≡ (state_of self.old).write_faults) }
    {
        self.writing = false;
        if self.waiting.is_full() {
            self.write_faults = self.write_faults.saturating_add(1);
            return Err(Failed);
        }
        self.target = self.files.get_index_of(name);
        self.writing = true;
        Ok(())
    }

    /// Takes the whole piece, and drops it.
    fn put(&mut self, bytes: &[u8]) -> Result<usize, Failed>
        requires is_created { (state_of self.old).writing ≡ true }
        ensures bound { IfOk result (λ count. (count ≤ length bytes.now) × (0 < length bytes.now → 0 < count)) }
        ensures gained { IfOk result (λ count.
            DraftGains (state_of self.old) (state_of self.new) (take count bytes.now)) }
        ensures prefix { OnErr result (DraftGainsPrefix (state_of self.old) (state_of self.new) bytes.now) }
        ensures still_writing { (state_of self.new).writing ≡ true }
        ensures same_target { (state_of self.new).target ≡ (state_of self.old).target }
        ensures cause { HasCause (state_of self.old).write_faults (state_of self.new).write_faults result }
        ensures blamed { OnErr result
            (IfSome (state_of self.new).write_blame (λ blamed. (state_of self.old).target ≡ Some blamed)) }
        ensures same_blame { OnOk result ((state_of self.new).write_blame ≡ (state_of self.old).write_blame) }
        ensures reading { KeepsReading (state_of self.old) (state_of self.new) }

        ensures sure { IsOk result }
        ensures whole { IfOk result (λ count. count ≡ length bytes.now) }
        ensures same_faults { (state_of self.new).write_faults ≡ (state_of self.old).write_faults }
    {
        Ok(bytes.len())
    }

    /// Ends the writing of the draft.
    fn finish(&mut self) -> Result<(), Failed>
        requires is_created { (state_of self.old).writing ≡ true }
        ensures ended { (state_of self.new).writing ≡ false }
        ensures drafted { OnOk result
            ((state_of self.new).drafts ≡ (state_of self.old).drafts ++ this_draft (state_of self.old) ∷ []) }
        ensures dropped { OnErr result ((state_of self.new).drafts ≡ (state_of self.old).drafts) }
        ensures kept { (file : List ℕ) → told_in self.new file ≡ told_in self.old file }
        ensures cause { HasCause (state_of self.old).write_faults (state_of self.new).write_faults result }
        ensures blamed { OnErr result
            (IfSome (state_of self.new).write_blame (λ blamed. (state_of self.old).target ≡ Some blamed)) }
        ensures same_blame { OnOk result ((state_of self.new).write_blame ≡ (state_of self.old).write_blame) }
        ensures reading { KeepsReading (state_of self.old) (state_of self.new) }

        ensures sure { IsOk result }
        ensures same_faults { (state_of self.new).write_faults ≡ (state_of self.old).write_faults }
    {
        self.writing = false;
        self.waiting.push(self.target);
        Ok(())
    }

    /// Publishes the oldest draft: the file of its name is told no longer.
    fn publish(&mut self) -> Result<(), Failed>
        requires is_shut { (state_of self.old).writing ≡ false }
        requires one_waits { 0 < length (state_of self.old).drafts }
        ensures still_shut { (state_of self.new).writing ≡ false }
        ensures published { OnOk result ((draft : Draft) × Publishes (state_of self.old) (state_of self.new) draft) }
        ensures kept { OnErr result ((file : List ℕ) → told_in self.new file ≡ told_in self.old file) }
        ensures none_left { OnErr result ((state_of self.new).drafts ≡ []) }
        ensures cause { HasCause (state_of self.old).write_faults (state_of self.new).write_faults result }
        ensures blamed { OnErr result
            (IfSome (state_of self.new).write_blame (λ blamed. first_name (state_of self.old).drafts ≡ Some blamed)) }
        ensures same_blame { OnOk result ((state_of self.new).write_blame ≡ (state_of self.old).write_blame) }
        ensures reading { KeepsReading (state_of self.old) (state_of self.new) }

        ensures sure { IsOk result }
        ensures same_faults { (state_of self.new).write_faults ≡ (state_of self.old).write_faults }
    {
        let first = self.waiting.remove(0);
        if let Some(number) = first {
            replace_at(&mut self.files, number, None);
        }
        Ok(())
    }

    /// Drops all drafts.
    fn discard(&mut self)
        ensures shut { (state_of self.new).writing ≡ false }
        ensures none_left { (state_of self.new).drafts ≡ [] }
        ensures kept { (file : List ℕ) → told_in self.new file ≡ told_in self.old file }
        ensures same_faults { (state_of self.new).write_faults ≡ (state_of self.old).write_faults }
        ensures same_blame { (state_of self.new).write_blame ≡ (state_of self.old).write_blame }
        ensures reading { KeepsReading (state_of self.old) (state_of self.new) }
    {
        self.writing = false;
        self.waiting.clear();
    }
}
