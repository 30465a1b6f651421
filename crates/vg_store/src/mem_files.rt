//! Files in memory.
ghost use Rattle.std.specs.Prelude.{◌≡◌, ◌≢◌, ◌↔◌, ◌⊎◌, ℕ, ◌+◌, ◌-◌, ◌^◌, ◌<◌, ◌≤◌, min, List, length, take, [], ◌∷◌, ◌++◌, Bool, true, false, is_some, Option, Some, None, Contains, MatchOption, IfOk, IfSome, IsErr, IsSome, OnOk, OnErr};
ghost use Rattle.std.specs.List.{All};
ghost use Rattle.indexmap.specs.IndexMap.{index_map_len};
ghost use Rattle.vg_store.specs.Causes.{HasCause};
ghost use Rattle.vg_store.specs.Reading.{Begins, IsNextPiece, read_file};
ghost use Rattle.vg_store.specs.States.{Draft, KeepsReading, KeepsWriting, first_name, this_draft};
ghost use Rattle.vg_store.specs.Writing.{BeginsWriting, DraftGains, DraftGainsPrefix, Publishes};

use crate::calls::{Calls, Faults};
use crate::contents::{Told, number_of, replace_at};
use crate::files::{Failed, Files};
use crate::waiting::Waiting;
use indexmap::IndexMap;
use std::alloc::Global;
use std::mem;
use vg_num::Memory;

/// Files in memory, which tell all that they hold. Calls of given numbers fail, and a call moves no more bytes than
/// a given number.
///
/// The names are numbered in the order in which they were added or created. The files that are read, written and to
/// blame are kept by their numbers, so that no call but `create` of a new name, `put` and `finish` takes memory.
#[derive(Drop)]
pub struct MemFiles {
    alloc: Global,
    files: IndexMap<String, Told>,
    chunk: usize,
    calls: Calls,
    source: Option<usize>,
    place: usize,
    reading: bool,
    read_faults: Faults,
    target: Option<usize>,
    draft: Vec<u8>,
    writing: bool,
    waiting: Vec<Waiting>,
    write_faults: Faults,
    ghost moves_some: { 1 ≤ chunk },
    ghost source_stands: { (n : ℕ) → source ≡ Some n → n < index_map_len files },
    ghost read_blamed_stands: { (n : ℕ) → read_faults.blamed ≡ Some n → n < index_map_len files },
    ghost target_stands: { (n : ℕ) → target ≡ Some n → n < index_map_len files },
    ghost write_blamed_stands: { (n : ℕ) → write_faults.blamed ≡ Some n → n < index_map_len files },
    ghost waiting_stand: { All (λ w. w.file < index_map_len files) waiting.items },
    ghost writes_one: { writing ≡ true → is_some target ≡ true },
}

impl MemFiles {
    ghost use Rattle.vg_store.specs.MemFiles.{state_of, held, left_of, is_reading, is_writing, drafts_of, chunk_of, calls_of, fails_of, read_faults_of, write_faults_of};

    /// No files. A call of `next` or `put` moves at most `chunk` bytes. Each call of `Files` has a number, from 0 on,
    /// and those whose number stands in `fails` fail. The count of calls stands still at `u64::MAX`, and so do the
    /// counts of faults.
    ///
    /// `Memory`: there was no room for the numbers.
    pub fn new(alloc: Global, chunk: usize, fails: &[u64]) -> Result<MemFiles, Memory>
        requires { 1 ≤ chunk }
        ensures empty { IfOk result (λ files. (name : List ℕ) → held files name ≡ None) }
        ensures shut { IfOk result (λ files. (is_reading files ≡ false) × (is_writing files ≡ false)) }
        ensures none_waits { IfOk result (λ files. drafts_of files ≡ []) }
        ensures chunk { IfOk result (λ files. chunk_of files ≡ chunk) }
        ensures fails { IfOk result (λ files. fails_of files ≡ fails.now) }
        ensures calls { IfOk result (λ files. calls_of files ≡ 0) }
        ensures read_faults { IfOk result (λ files. read_faults_of files ≡ 0) }
        ensures write_faults { IfOk result (λ files. write_faults_of files ≡ 0) }
    {
        Ok(MemFiles {
            alloc,
            files: IndexMap::new(alloc),
            chunk,
            calls: Calls::new(alloc, fails)?,
            source: None,
            place: 0,
            reading: false,
            read_faults: Faults::new(),
            target: None,
            draft: Vec::new(alloc),
            writing: false,
            waiting: Vec::new(alloc),
            write_faults: Faults::new(),
        })
    }

    /// Puts a file there, in place of one of that name.
    ///
    /// `Memory`: there was no room for it. The files are as before.
    pub fn add(&mut self, name: &str, bytes: &[u8]) -> Result<(), Memory>
        ensures added { OnOk result (held self.new name.now ≡ Some bytes.now) }
        ensures others { (other : List ℕ) → other ≢ name.now → held self.new other ≡ held self.old other }
        ensures failed { OnErr result ((file : List ℕ) → held self.new file ≡ held self.old file) }
        ensures reading { KeepsReading (state_of self.old) (state_of self.new) }
        ensures writing { KeepsWriting (state_of self.old) (state_of self.new) }
        ensures same_chunk { chunk_of self.new ≡ chunk_of self.old }
        ensures same_fails { fails_of self.new ≡ fails_of self.old }
        ensures same_calls { calls_of self.new ≡ calls_of self.old }
    {
        let bytes = bytes.to_vec(self.alloc)?;
        let name = String::from_str(self.alloc, name)?;
        self.files.insert(name, Some(bytes))?;
        Ok(())
    }

    /// The bytes of the file of this name, and `None` exactly where there is none. It takes no memory.
    pub fn get(&self, name: &str) -> Option<&[u8]>
        ensures { MatchOption result (held self.now name.now ≡ None) (λ bytes.
            held self.now name.now ≡ Some bytes.now) }
    {
        match self.files.get(name) {
            Some(Some(file)) => Some(file.as_slice()),
            _ => None,
        }
    }

    // What was not taken yet of the file that is read.
    fn rest(&self) -> &[u8]
        ensures { result.now ≡ left_of self.now }
    {
        let Some(source) = self.source else {
            return &[];
        };
        let Some((_, file)) = self.files.get_index(source) else {
            return &[];
        };
        let Some(bytes) = file else {
            return &[];
        };
        let bytes = bytes.as_slice();
        &bytes[self.place.min(bytes.len())..]
    }
}

impl Files for MemFiles {
    ghost use Rattle.vg_store.specs.MemFiles.{state_of, held, left_of, taken_of, is_reading, source_of, read_blame_of, target_of, is_writing, write_blame_of, drafted, drafts_of, room_of, places_of, chunk_of, calls_of, fails_of, read_faults_of, write_faults_of};

    ghost state = { λ files. state_of files };

    /// Begins to read a file at its first byte. It fails exactly where the call's number stands in the list or there is
    /// no such file. A name that is new is not told as the one to blame. It takes no memory.
    fn open(&mut self, name: &str) -> Result<(), Failed>
        ensures begun { OnOk result (Begins name.now (state_of self.new)) }
        ensures shut { OnErr result (is_reading self.new ≡ false) }
        ensures kept { (file : List ℕ) → held self.new file ≡ held self.old file }
        ensures cause { HasCause (read_faults_of self.old) (read_faults_of self.new) result }
        ensures blamed { OnErr result (IfSome (read_blame_of self.new) (λ blamed. blamed ≡ name.now)) }
        ensures same_blame { OnOk result (read_blame_of self.new ≡ read_blame_of self.old) }
        ensures writing { KeepsWriting (state_of self.old) (state_of self.new) }

        ensures told { OnOk result (source_of self.new ≡ Some name.now) }
        ensures failed { IsErr result
            ↔ (Contains (fails_of self.old) (calls_of self.old) ⊎ (held self.old name.now ≡ None)) }
        ensures told_blame { OnErr result (IsSome (held self.old name.now) → read_blame_of self.new ≡ Some name.now) }
        ensures counted { calls_of self.new ≡ min (calls_of self.old + 1) (2 ^ 64 - 1) }
        ensures ok_faults { OnOk result (read_faults_of self.new ≡ read_faults_of self.old) }
        ensures err_faults { OnErr result (read_faults_of self.new ≡ min (read_faults_of self.old + 1) (2 ^ 64 - 1)) }
        ensures same_fails { fails_of self.new ≡ fails_of self.old }
        ensures same_chunk { chunk_of self.new ≡ chunk_of self.old }
    {
        self.reading = false;
        let number = self.files.get_index_of(name);
        let is_there = self.get(name).is_some();
        if self.calls.count_call() || !is_there {
            self.read_faults.add(number);
            return Err(Failed);
        }
        self.source = number;
        self.place = 0;
        self.reading = true;
        Ok(())
    }

    /// Takes the next bytes of the open file: as many as the chunk, the buffer and the file's rest allow. It fails
    /// exactly where the call's number stands in the list.
    fn next(&mut self, buf: &mut [u8]) -> Result<usize, Failed>
        requires some_room { 0 < length buf.old }
        requires is_open { is_reading self.old ≡ true }
        requires countable { taken_of self.old + length buf.old < 2 ^ 64 }
        ensures count { IfOk result (λ count. (count ≤ length buf.old)
            × (taken_of self.new ≡ taken_of self.old + count)) }
        ensures bytes { IfOk result (λ count.
            IfSome (read_file (state_of self.old)) (λ file. IsNextPiece file (taken_of self.old) count buf.new)) }
        ensures unmoved { OnErr result (taken_of self.new ≡ taken_of self.old) }
        ensures still_open { is_reading self.new ≡ true }
        ensures same_source { source_of self.new ≡ source_of self.old }
        ensures kept { (file : List ℕ) → held self.new file ≡ held self.old file }
        ensures cause { HasCause (read_faults_of self.old) (read_faults_of self.new) result }
        ensures blamed { OnErr result (IfSome (read_blame_of self.new) (λ blamed. source_of self.old ≡ Some blamed)) }
        ensures same_blame { OnOk result (read_blame_of self.new ≡ read_blame_of self.old) }
        ensures writing { KeepsWriting (state_of self.old) (state_of self.new) }

        ensures listed { IsErr result ↔ Contains (fails_of self.old) (calls_of self.old) }
        ensures moved { IfOk result (λ count. count
            ≡ min (min (chunk_of self.old) (length buf.old)) (length (left_of self.old))) }
        ensures untouched { OnErr result (buf.new ≡ buf.old) }
        ensures counted { calls_of self.new ≡ min (calls_of self.old + 1) (2 ^ 64 - 1) }
        ensures ok_faults { OnOk result (read_faults_of self.new ≡ read_faults_of self.old) }
        ensures err_faults { OnErr result (read_faults_of self.new ≡ min (read_faults_of self.old + 1) (2 ^ 64 - 1)) }
        ensures same_fails { fails_of self.new ≡ fails_of self.old }
        ensures same_chunk { chunk_of self.new ≡ chunk_of self.old }
    {
        if self.calls.count_call() {
            self.read_faults.add(self.source);
            return Err(Failed);
        }
        let rest = self.rest();
        let count = self.chunk.min(buf.len()).min(rest.len());
        buf[..count].copy_from_slice(&rest[..count]);
        self.place += count;
        Ok(count)
    }

    /// Begins an empty draft of the file of this name. It fails where the call's number stands in the list, and when
    /// there is no memory for a new name. A name that is new is not told as the one to blame.
    fn create(&mut self, name: &str) -> Result<(), Failed>
        ensures begun { OnOk result (BeginsWriting name.now (state_of self.new)) }
        ensures shut { OnErr result (is_writing self.new ≡ false) }
        ensures kept { (file : List ℕ) → held self.new file ≡ held self.old file }
        ensures same_drafts { drafts_of self.new ≡ drafts_of self.old }
        ensures cause { HasCause (write_faults_of self.old) (write_faults_of self.new) result }
        ensures blamed { OnErr result (IfSome (write_blame_of self.new) (λ blamed. blamed ≡ name.now)) }
        ensures same_blame { OnOk result (write_blame_of self.new ≡ write_blame_of self.old) }
        ensures reading { KeepsReading (state_of self.old) (state_of self.new) }

        ensures empty { OnOk result (drafted self.new ≡ []) }
        ensures told { OnOk result (target_of self.new ≡ Some name.now) }
        ensures same_target { OnErr result (target_of self.new ≡ target_of self.old) }
        ensures listed { Contains (fails_of self.old) (calls_of self.old) → IsErr result }
        ensures failed { OnErr result (Contains (fails_of self.old) (calls_of self.old)
            ⊎ (held self.old name.now ≡ None)) }
        ensures told_blame { OnErr result (IsSome (held self.old name.now) → write_blame_of self.new ≡ Some name.now) }
        ensures counted { calls_of self.new ≡ min (calls_of self.old + 1) (2 ^ 64 - 1) }
        ensures ok_faults { OnOk result (write_faults_of self.new ≡ write_faults_of self.old) }
        ensures err_faults { OnErr result (write_faults_of self.new ≡ min (write_faults_of self.old + 1) (2 ^ 64 - 1)) }
        ensures same_fails { fails_of self.new ≡ fails_of self.old }
        ensures same_chunk { chunk_of self.new ≡ chunk_of self.old }
    {
        self.writing = false;
        let number = self.files.get_index_of(name);
        if self.calls.count_call() {
            self.write_faults.add(number);
            return Err(Failed);
        }
        let Ok(target) = number_of(self.alloc, &mut self.files, name) else {
            self.write_faults.add(number);
            return Err(Failed);
        };
        self.target = Some(target);
        self.draft.clear();
        self.writing = true;
        Ok(())
    }

    /// Appends the first bytes of a piece: as many as the chunk and the piece allow. It fails where the call's number
    /// stands in the list, and when out of memory. Then nothing is appended.
    fn put(&mut self, bytes: &[u8]) -> Result<usize, Failed>
        requires is_created { is_writing self.old ≡ true }
        ensures bound { IfOk result (λ count. (count ≤ length bytes.now) × (0 < length bytes.now → 0 < count)) }
        ensures gained { IfOk result (λ count.
            DraftGains (state_of self.old) (state_of self.new) (take count bytes.now)) }
        ensures prefix { OnErr result (DraftGainsPrefix (state_of self.old) (state_of self.new) bytes.now) }
        ensures still_writing { is_writing self.new ≡ true }
        ensures same_target { target_of self.new ≡ target_of self.old }
        ensures cause { HasCause (write_faults_of self.old) (write_faults_of self.new) result }
        ensures blamed { OnErr result (IfSome (write_blame_of self.new) (λ blamed. target_of self.old ≡ Some blamed)) }
        ensures same_blame { OnOk result (write_blame_of self.new ≡ write_blame_of self.old) }
        ensures reading { KeepsReading (state_of self.old) (state_of self.new) }

        ensures moved { IfOk result (λ count. count ≡ min (chunk_of self.old) (length bytes.now)) }
        ensures unchanged { OnErr result (drafted self.new ≡ drafted self.old) }
        ensures listed { Contains (fails_of self.old) (calls_of self.old) → IsErr result }
        ensures failed { OnErr result (Contains (fails_of self.old) (calls_of self.old)
            ⊎ (room_of self.old < min (chunk_of self.old) (length bytes.now))) }
        ensures told_blame { OnErr result (write_blame_of self.new ≡ target_of self.old) }
        ensures counted { calls_of self.new ≡ min (calls_of self.old + 1) (2 ^ 64 - 1) }
        ensures ok_faults { OnOk result (write_faults_of self.new ≡ write_faults_of self.old) }
        ensures err_faults { OnErr result (write_faults_of self.new ≡ min (write_faults_of self.old + 1) (2 ^ 64 - 1)) }
        ensures same_fails { fails_of self.new ≡ fails_of self.old }
        ensures same_chunk { chunk_of self.new ≡ chunk_of self.old }
    {
        let count = self.chunk.min(bytes.len());
        if self.calls.count_call() || self.draft.extend_from_slice(&bytes[..count]).is_err() {
            self.write_faults.add(self.target);
            return Err(Failed);
        }
        Ok(count)
    }

    /// Ends the writing of the draft. It fails where the call's number stands in the list, and when there is no memory
    /// for one more draft that waits.
    fn finish(&mut self) -> Result<(), Failed>
        requires is_created { is_writing self.old ≡ true }
        ensures ended { is_writing self.new ≡ false }
        ensures drafted { OnOk result (drafts_of self.new ≡ drafts_of self.old ++ this_draft (state_of self.old) ∷ []) }
        ensures dropped { OnErr result (drafts_of self.new ≡ drafts_of self.old) }
        ensures kept { (file : List ℕ) → held self.new file ≡ held self.old file }
        ensures cause { HasCause (write_faults_of self.old) (write_faults_of self.new) result }
        ensures blamed { OnErr result (IfSome (write_blame_of self.new) (λ blamed. target_of self.old ≡ Some blamed)) }
        ensures same_blame { OnOk result (write_blame_of self.new ≡ write_blame_of self.old) }
        ensures reading { KeepsReading (state_of self.old) (state_of self.new) }

        ensures same_target { target_of self.new ≡ target_of self.old }
        ensures listed { Contains (fails_of self.old) (calls_of self.old) → IsErr result }
        ensures failed { OnErr result (Contains (fails_of self.old) (calls_of self.old) ⊎ (places_of self.old < 1)) }
        ensures told_blame { OnErr result (write_blame_of self.new ≡ target_of self.old) }
        ensures counted { calls_of self.new ≡ min (calls_of self.old + 1) (2 ^ 64 - 1) }
        ensures ok_faults { OnOk result (write_faults_of self.new ≡ write_faults_of self.old) }
        ensures err_faults { OnErr result (write_faults_of self.new ≡ min (write_faults_of self.old + 1) (2 ^ 64 - 1)) }
        ensures same_fails { fails_of self.new ≡ fails_of self.old }
        ensures same_chunk { chunk_of self.new ≡ chunk_of self.old }
    {
        let Some(file) = self.target else {
            unreachable!();
        };
        self.writing = false;
        if self.calls.count_call() {
            self.write_faults.add(self.target);
            return Err(Failed);
        }
        let bytes = mem::replace(&mut self.draft, Vec::new(self.alloc));
        let Ok(()) = self.waiting.push(Waiting { file, bytes }) else {
            self.write_faults.add(self.target);
            return Err(Failed);
        };
        Ok(())
    }

    /// Puts the oldest draft in the place of its file. It fails exactly where the call's number stands in the list, and
    /// takes no memory.
    fn publish(&mut self) -> Result<(), Failed>
        requires is_shut { is_writing self.old ≡ false }
        requires one_waits { 0 < length (drafts_of self.old) }
        ensures still_shut { is_writing self.new ≡ false }
        ensures published { OnOk result ((draft : Draft) × Publishes (state_of self.old) (state_of self.new) draft) }
        ensures kept { OnErr result ((file : List ℕ) → held self.new file ≡ held self.old file) }
        ensures none_left { OnErr result (drafts_of self.new ≡ []) }
        ensures cause { HasCause (write_faults_of self.old) (write_faults_of self.new) result }
        ensures blamed { OnErr result
            (IfSome (write_blame_of self.new) (λ blamed. first_name (drafts_of self.old) ≡ Some blamed)) }
        ensures same_blame { OnOk result (write_blame_of self.new ≡ write_blame_of self.old) }
        ensures reading { KeepsReading (state_of self.old) (state_of self.new) }

        ensures listed { IsErr result ↔ Contains (fails_of self.old) (calls_of self.old) }
        ensures told_blame { OnErr result (write_blame_of self.new ≡ first_name (drafts_of self.old)) }
        ensures counted { calls_of self.new ≡ min (calls_of self.old + 1) (2 ^ 64 - 1) }
        ensures ok_faults { OnOk result (write_faults_of self.new ≡ write_faults_of self.old) }
        ensures err_faults { OnErr result (write_faults_of self.new ≡ min (write_faults_of self.old + 1) (2 ^ 64 - 1)) }
        ensures same_fails { fails_of self.new ≡ fails_of self.old }
        ensures same_chunk { chunk_of self.new ≡ chunk_of self.old }
    {
        let draft = self.waiting.remove(0);
        if self.calls.count_call() {
            self.write_faults.add(Some(draft.file));
            self.waiting.clear();
            return Err(Failed);
        }
        replace_at(&mut self.files, draft.file, Some(draft.bytes));
        Ok(())
    }

    /// Drops all drafts. It is no call that is counted, and takes no memory.
    fn discard(&mut self)
        ensures shut { is_writing self.new ≡ false }
        ensures none_left { drafts_of self.new ≡ [] }
        ensures kept { (file : List ℕ) → held self.new file ≡ held self.old file }
        ensures same_faults { write_faults_of self.new ≡ write_faults_of self.old }
        ensures same_blame { write_blame_of self.new ≡ write_blame_of self.old }
        ensures reading { KeepsReading (state_of self.old) (state_of self.new) }

        ensures same_calls { calls_of self.new ≡ calls_of self.old }
        ensures same_fails { fails_of self.new ≡ fails_of self.old }
        ensures same_chunk { chunk_of self.new ≡ chunk_of self.old }
    {
        self.writing = false;
        self.waiting.clear();
    }
}
