//! Files that are read and written, one of each at a time. What is written is a draft until it is published.
ghost use Rattle.std.specs.Prelude.{◌≡◌, ℕ, ◌+◌, ◌^◌, ◌<◌, ◌≤◌, List, [], ◌∷◌, ◌++◌, length, take, Bool, true, false, Option, Some, IfOk, IfSome, OnOk, OnErr};
ghost use Rattle.vg_store.specs.Causes.{HasCause};
ghost use Rattle.vg_store.specs.Reading.{Begins, IsNextPiece, read_file};
ghost use Rattle.vg_store.specs.States.{Draft, FilesState, KeepsReading, KeepsWriting, first_name, this_draft};
ghost use Rattle.vg_store.specs.Writing.{BeginsWriting, DraftGains, DraftGainsPrefix, Publishes};

use std::alloc::AllocError;
use std::io;

/// A call of the outside failed. Nothing is known of why.
#[derive(Clone, Copy, Debug, PartialEq, Eq)]
pub struct Failed;

impl From<AllocError> for Failed {
    fn from(_: AllocError) -> Self {
        Failed
    }
}

impl From<io::Error> for Failed {
    fn from(_: io::Error) -> Self {
        Failed
    }
}

/// Files by name, of which one at a time is read from its first byte on. A file is written in three steps: its bytes
/// are put into a draft, one at a time; the draft is finished; and finished drafts are published, the oldest first. So
/// a file changes only as a whole, and several files change only once all their drafts are whole. A draft that is never
/// published is forgotten.
pub trait Files {
    /// What contracts see of the files. The counts of read faults and of write faults never fall.
    ghost state: { Self → FilesState };

    /// Begins to read a file at its first byte. After `Failed` no file is open.
    fn open(&mut self, name: &str) -> Result<(), Failed>
        ensures begun { OnOk result (Begins name.now (state self.new)) }
        ensures shut { OnErr result ((state self.new).reading ≡ false) }
        ensures kept { (file : List ℕ) → (state self.new).holds file ≡ (state self.old).holds file }
        ensures cause { HasCause (state self.old).read_faults (state self.new).read_faults result }
        ensures blamed { OnErr result (IfSome (state self.new).read_blame (λ blamed. blamed ≡ name.now)) }
        ensures same_blame { OnOk result ((state self.new).read_blame ≡ (state self.old).read_blame) }
        ensures writing { KeepsWriting (state self.old) (state self.new) };

    /// Takes the next bytes of the open file, at most as many as the buffer has, and says how many: 0 is the
    /// file's end. After `Failed` no byte was taken.
    fn next(&mut self, buf: &mut [u8]) -> Result<usize, Failed>
        requires some_room { 0 < length buf.old }
        requires is_open { (state self.old).reading ≡ true }
        requires countable { (state self.old).taken + length buf.old < 2 ^ 64 }
        ensures count { IfOk result (λ count. (count ≤ length buf.old)
            × ((state self.new).taken ≡ (state self.old).taken + count)) }
        ensures bytes { IfOk result (λ count.
            IfSome (read_file (state self.old)) (λ file. IsNextPiece file (state self.old).taken count buf.new)) }
        ensures unmoved { OnErr result ((state self.new).taken ≡ (state self.old).taken) }
        ensures still_open { (state self.new).reading ≡ true }
        ensures same_source { (state self.new).source ≡ (state self.old).source }
        ensures kept { (file : List ℕ) → (state self.new).holds file ≡ (state self.old).holds file }
        ensures cause { HasCause (state self.old).read_faults (state self.new).read_faults result }
        ensures blamed { OnErr result
            (IfSome (state self.new).read_blame (λ blamed. (state self.old).source ≡ Some blamed)) }
        ensures same_blame { OnOk result ((state self.new).read_blame ≡ (state self.old).read_blame) }
        ensures writing { KeepsWriting (state self.old) (state self.new) };

    /// Begins a draft of the file of this name, which stays as it is until the draft is published. A draft that was
    /// being written is dropped. After `Failed` no draft is being written.
    fn create(&mut self, name: &str) -> Result<(), Failed>
        ensures begun { OnOk result (BeginsWriting name.now (state self.new)) }
        ensures shut { OnErr result ((state self.new).writing ≡ false) }
        ensures kept { (file : List ℕ) → (state self.new).holds file ≡ (state self.old).holds file }
        ensures same_drafts { (state self.new).drafts ≡ (state self.old).drafts }
        ensures cause { HasCause (state self.old).write_faults (state self.new).write_faults result }
        ensures blamed { OnErr result (IfSome (state self.new).write_blame (λ blamed. blamed ≡ name.now)) }
        ensures same_blame { OnOk result ((state self.new).write_blame ≡ (state self.old).write_blame) }
        ensures reading { KeepsReading (state self.old) (state self.new) };

    /// Appends the first bytes of a piece to the draft that is being written, and says how many: of a piece that is not
    /// empty at least one. After `Failed` a prefix of the piece was appended, possibly an empty one.
    fn put(&mut self, bytes: &[u8]) -> Result<usize, Failed>
        requires is_created { (state self.old).writing ≡ true }
        ensures bound { IfOk result (λ count. (count ≤ length bytes.now) × (0 < length bytes.now → 0 < count)) }
        ensures gained { IfOk result (λ count. DraftGains (state self.old) (state self.new) (take count bytes.now)) }
        ensures prefix { OnErr result (DraftGainsPrefix (state self.old) (state self.new) bytes.now) }
        ensures still_writing { (state self.new).writing ≡ true }
        ensures same_target { (state self.new).target ≡ (state self.old).target }
        ensures cause { HasCause (state self.old).write_faults (state self.new).write_faults result }
        ensures blamed { OnErr result
            (IfSome (state self.new).write_blame (λ blamed. (state self.old).target ≡ Some blamed)) }
        ensures same_blame { OnOk result ((state self.new).write_blame ≡ (state self.old).write_blame) }
        ensures reading { KeepsReading (state self.old) (state self.new) };

    /// Ends the writing of the draft. It is whole then, and waits behind the other drafts to be published. After
    /// `Failed` it is dropped. No file changes.
    fn finish(&mut self) -> Result<(), Failed>
        requires is_created { (state self.old).writing ≡ true }
        ensures ended { (state self.new).writing ≡ false }
        ensures drafted { OnOk result
            ((state self.new).drafts ≡ (state self.old).drafts ++ this_draft (state self.old) ∷ []) }
        ensures dropped { OnErr result ((state self.new).drafts ≡ (state self.old).drafts) }
        ensures kept { (file : List ℕ) → (state self.new).holds file ≡ (state self.old).holds file }
        ensures cause { HasCause (state self.old).write_faults (state self.new).write_faults result }
        ensures blamed { OnErr result
            (IfSome (state self.new).write_blame (λ blamed. (state self.old).target ≡ Some blamed)) }
        ensures same_blame { OnOk result ((state self.new).write_blame ≡ (state self.old).write_blame) }
        ensures reading { KeepsReading (state self.old) (state self.new) };

    /// Puts the oldest draft in the place of the file of its name, whole and at once. After `Failed` every file holds
    /// what it held, and no draft is left.
    fn publish(&mut self) -> Result<(), Failed>
        requires is_shut { (state self.old).writing ≡ false }
        requires one_waits { 0 < length (state self.old).drafts }
        ensures still_shut { (state self.new).writing ≡ false }
        ensures published { OnOk result ((draft : Draft) × Publishes (state self.old) (state self.new) draft) }
        ensures kept { OnErr result ((file : List ℕ) → (state self.new).holds file ≡ (state self.old).holds file) }
        ensures none_left { OnErr result ((state self.new).drafts ≡ []) }
        ensures cause { HasCause (state self.old).write_faults (state self.new).write_faults result }
        ensures blamed { OnErr result
            (IfSome (state self.new).write_blame (λ blamed. first_name (state self.old).drafts ≡ Some blamed)) }
        ensures same_blame { OnOk result ((state self.new).write_blame ≡ (state self.old).write_blame) }
        ensures reading { KeepsReading (state self.old) (state self.new) };

    /// Drops all drafts, those that wait and the one that is being written. No file changes, and the call cannot fail.
    fn discard(&mut self)
        ensures shut { (state self.new).writing ≡ false }
        ensures none_left { (state self.new).drafts ≡ [] }
        ensures kept { (file : List ℕ) → (state self.new).holds file ≡ (state self.old).holds file }
        ensures same_faults { (state self.new).write_faults ≡ (state self.old).write_faults }
        ensures same_blame { (state self.new).write_blame ≡ (state self.old).write_blame }
        ensures reading { KeepsReading (state self.old) (state self.new) };
}
