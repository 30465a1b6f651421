//! Bytes that are appended to a draft as a whole, and a file that is drafted or written as a whole.
ghost use Rattle.std.specs.Prelude.{◌≡◌, ◌≢◌, ℕ, ◌≤◌, List, [], true, false, Some, IfSome, OnOk, OnErr};
ghost use Rattle.vg_store.specs.States.{KeepsReading};
ghost use Rattle.vg_store.specs.Writing.{DraftGains, DraftGainsPrefix, OneWaits, WriteFaultAt};

use crate::files::{Failed, Files};

/// Appends all of the bytes to the draft that is being written, in as many calls of `put` as it takes. At the first
/// `Failed` it stops and answers it: the count of write faults rose in this call, at the draft's file, and a prefix of
/// the bytes was appended. It takes no memory.
pub fn append<F: Files>(files: &mut F, bytes: &[u8]) -> Result<(), Failed>
    requires is_created { (F.state files.old).writing ≡ true }
    ensures all { OnOk result (DraftGains (F.state files.old) (F.state files.new) bytes.now) }
    ensures prefix { OnErr result (DraftGainsPrefix (F.state files.old) (F.state files.new) bytes.now) }
    ensures failed { OnErr result
        (WriteFaultAt (F.state files.old) (F.state files.new) (λ blamed. (F.state files.old).target ≡ Some blamed)) }
    ensures never_falls { (F.state files.old).write_faults ≤ (F.state files.new).write_faults }
    ensures still_writing { (F.state files.new).writing ≡ true }
    ensures same_target { (F.state files.new).target ≡ (F.state files.old).target }
    ensures same_blame { OnOk result ((F.state files.new).write_blame ≡ (F.state files.old).write_blame) }
    ensures reading { KeepsReading (F.state files.old) (F.state files.new) }
{
    let mut done = 0;
    'pieces: while done < bytes.len() {
        done += files.put(&bytes[done..])?;
    }
    Ok(())
}

/// Makes a draft of a file with these bytes: creates it, puts all of the bytes and finishes it. At the first `Failed`
/// it stops and answers it: the count of write faults rose in this call, at this file, and no more drafts wait than
/// before. No file changes. It takes no memory.
pub fn draft_file<F: Files>(files: &mut F, name: &str, bytes: &[u8]) -> Result<(), Failed>
    ensures drafted { OnOk result (OneWaits (F.state files.old) (F.state files.new) name.now bytes.now) }
    ensures dropped { OnErr result ((F.state files.new).drafts ≡ (F.state files.old).drafts) }
    ensures kept { (file : List ℕ) → (F.state files.new).holds file ≡ (F.state files.old).holds file }
    ensures failed { OnErr result (WriteFaultAt (F.state files.old) (F.state files.new) (λ blamed. blamed ≡ name.now)) }
    ensures never_falls { (F.state files.old).write_faults ≤ (F.state files.new).write_faults }
    ensures ended { OnOk result ((F.state files.new).writing ≡ false) }
    ensures same_blame { OnOk result ((F.state files.new).write_blame ≡ (F.state files.old).write_blame) }
    ensures reading { KeepsReading (F.state files.old) (F.state files.new) }
{
    files.create(name)?;
    append(files, bytes)?;
    files.finish()?;
    Ok(())
}

/// Writes a file whole: makes a draft of it and publishes that. Drafts that wait are dropped. After `Failed` every file
/// holds what it held, and the count of write faults rose in this call, at this file. It takes no memory.
pub fn write_file<F: Files>(files: &mut F, name: &str, bytes: &[u8]) -> Result<(), Failed>
    ensures whole { OnOk result (IfSome ((F.state files.new).holds name.now) (λ file. file ≡ bytes.now)) }
    ensures kept { OnErr result
        ((file : List ℕ) → (F.state files.new).holds file ≡ (F.state files.old).holds file) }
    ensures others { (other : List ℕ) → other ≢ name.now
        → (F.state files.new).holds other ≡ (F.state files.old).holds other }
    ensures none_left { (F.state files.new).drafts ≡ [] }
    ensures failed { OnErr result (WriteFaultAt (F.state files.old) (F.state files.new) (λ blamed. blamed ≡ name.now)) }
    ensures never_falls { (F.state files.old).write_faults ≤ (F.state files.new).write_faults }
    ensures ended { (F.state files.new).writing ≡ false }
    ensures same_blame { OnOk result ((F.state files.new).write_blame ≡ (F.state files.old).write_blame) }
    ensures reading { KeepsReading (F.state files.old) (F.state files.new) }
{
    files.discard();
    if let Err(failed) = draft_file(files, name, bytes) {
        files.discard();
        return Err(failed);
    }
    files.publish()?;
    Ok(())
}
