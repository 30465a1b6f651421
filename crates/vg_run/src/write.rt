//! A draft of a file, from the pieces of its text.

ghost use Rattle.std.specs.Prelude.{◌≡◌, ℕ, ◌≤◌, List, ◌++◌, true, false, Some, OnOk, OnErr};
ghost use Rattle.vg_answer.specs.NewTexts.{text_of};
ghost use Rattle.vg_store.specs.States.{KeepsReading};
ghost use Rattle.vg_store.specs.Writing.{DraftGains, DraftGainsPrefix, FilesStay, OneWaits, WriteFaultAt};

use arrayvec::ArrayVec;
use vg_answer::NewText;
use vg_store::{Failed, Files, append};

/// How many bytes of small pieces are gathered before they are written.
const ROOM: usize = 8192;

/// Puts a piece behind those that wait. Where there is no room for it, what waits is written first, and a piece of more
/// bytes than the room has is written after it, by itself. So the draft and what waits together gain the piece.
fn append_gathered<F: Files>(
    files: &mut F,
    waiting: &mut ArrayVec<u8, ROOM>,
    piece: &[u8],
) -> Result<(), Failed>
    requires is_created { (F.state files.old).writing ≡ true }
    ensures all { OnOk result ((gained : List ℕ) × DraftGains (F.state files.old) (F.state files.new) gained
        × (waiting.old.items ++ piece.now ≡ gained ++ waiting.new.items)) }
    ensures prefix { OnErr result
        (DraftGainsPrefix (F.state files.old) (F.state files.new) (waiting.old.items ++ piece.now)) }
    ensures failed { OnErr result
        (WriteFaultAt (F.state files.old) (F.state files.new) (λ blamed. (F.state files.old).target ≡ Some blamed)) }
    ensures never_falls { (F.state files.old).write_faults ≤ (F.state files.new).write_faults }
    ensures still_writing { (F.state files.new).writing ≡ true }
    ensures same_target { (F.state files.new).target ≡ (F.state files.old).target }
    ensures same_blame { OnOk result ((F.state files.new).write_blame ≡ (F.state files.old).write_blame) }
    ensures reading { KeepsReading (F.state files.old) (F.state files.new) }
{
    if waiting.try_extend_from_slice(piece).is_ok() {
        return Ok(());
    }
    append(files, waiting.as_slice())?;
    waiting.clear();
    if waiting.try_extend_from_slice(piece).is_ok() {
        return Ok(());
    }
    append(files, piece)?;
    Ok(())
}

/// Appends a text to the draft that is being written, piece by piece. Small pieces are gathered, so that many of them
/// are one write.
fn append_pieces<F: Files>(files: &mut F, text: &NewText) -> Result<(), Failed>
    requires is_created { (F.state files.old).writing ≡ true }
    ensures all { OnOk result (DraftGains (F.state files.old) (F.state files.new) (text_of text.now)) }
    ensures prefix { OnErr result (DraftGainsPrefix (F.state files.old) (F.state files.new) (text_of text.now)) }
    ensures failed { OnErr result
        (WriteFaultAt (F.state files.old) (F.state files.new) (λ blamed. (F.state files.old).target ≡ Some blamed)) }
    ensures never_falls { (F.state files.old).write_faults ≤ (F.state files.new).write_faults }
    ensures still_writing { (F.state files.new).writing ≡ true }
    ensures same_target { (F.state files.new).target ≡ (F.state files.old).target }
    ensures same_blame { OnOk result ((F.state files.new).write_blame ≡ (F.state files.old).write_blame) }
    ensures reading { KeepsReading (F.state files.old) (F.state files.new) }
{
    let mut waiting = ArrayVec::new();
    'piece: for piece in text.pieces() {
        append_gathered(files, &mut waiting, piece)?;
    }
    let last = waiting.as_slice();
    append(files, last)?;
    Ok(())
}

/// Makes a draft of a file with this text: creates it, puts all of the text and finishes it. At the first `Failed` it
/// stops and answers it: the count of write faults rose in this call, at this file, and no more drafts wait than
/// before. No file changes. It takes no memory. Of the text it copies small pieces alone, which it gathers in a fixed
/// buffer so that many of them are one write.
pub fn draft_text<F: Files>(files: &mut F, name: &str, text: &NewText) -> Result<(), Failed>
    ensures drafted { OnOk result (OneWaits (F.state files.old) (F.state files.new) name.now (text_of text.now)) }
    ensures dropped { OnErr result ((F.state files.new).drafts ≡ (F.state files.old).drafts) }
    ensures kept { FilesStay (F.state files.old) (F.state files.new) }
    ensures failed { OnErr result (WriteFaultAt (F.state files.old) (F.state files.new) (λ blamed. blamed ≡ name.now)) }
    ensures never_falls { (F.state files.old).write_faults ≤ (F.state files.new).write_faults }
    ensures ended { OnOk result ((F.state files.new).writing ≡ false) }
    ensures same_blame { OnOk result ((F.state files.new).write_blame ≡ (F.state files.old).write_blame) }
    ensures reading { KeepsReading (F.state files.old) (F.state files.new) }
{
    files.create(name)?;
    append_pieces(files, text)?;
    files.finish()?;
    Ok(())
}
