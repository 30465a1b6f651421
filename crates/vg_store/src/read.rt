//! A file as a whole.
ghost use Rattle.std.specs.Prelude.{◌≡◌, ℕ, ◌+◌, ◌^◌, ◌<◌, ◌≤◌, List, length, Some, IfOk, OnOk, IfSome, IsErrOf, vec_len, []};
ghost use Rattle.vg_store.specs.Reading.{FailsOnOpenFile, HasRead, IsTooLong, ReadFaultAt, read_file};
ghost use Rattle.vg_store.specs.States.{KeepsWriting};
ghost use Rattle.vg_store.specs.declared.read.ReadAll.TheVariants.{Failed, Memory};

use crate::files::{Failed, Files};
use std::alloc::{AllocError, Global};
use thiserror::Error;

/// The greatest length of a file that is read, in bytes: 2^28.
pub const MOST_BYTES: usize = 1 << 28;

// The most bytes that are taken at once: 64 KiB.
const PIECE_BYTES: usize = 1 << 16;

/// Why a file was not read.
#[derive(Clone, Copy, Debug, PartialEq, Eq, Error)]
pub enum ReadAll {
    /// Opening or reading it failed.
    #[error("the file could not be read")]
    Failed = 1,
    /// It has more than 2^28 bytes.
    #[error("the file has more than 2^28 bytes")]
    TooLong = 2,
    /// Out of memory.
    #[error("out of memory")]
    Memory = 3,
}

impl From<Failed> for ReadAll {
    ghost from_gives = { λ _ error. error ≡ Failed };

    fn from(_: Failed) -> Self {
        ReadAll::Failed
    }
}

impl From<AllocError> for ReadAll {
    ghost from_gives = { λ _ error. error ≡ Memory };

    fn from(_: AllocError) -> Self {
        ReadAll::Memory
    }
}

// Takes the next piece of the open file and puts it after the bytes that were taken before. It says how many bytes
// the piece has: none at the file's end.
fn take_piece<F: Files>(
    files: &mut F,
    buf: &mut [u8],
    bytes: &mut Vec<u8>,
) -> Result<usize, ReadAll>
    requires some_room { 0 < length buf.old }
    requires short { vec_len bytes.old ≤ 2 ^ 28 }
    requires begun { HasRead (F.state files.old) bytes.old.items }
    ensures more { OnOk result (HasRead (F.state files.new) bytes.new.items) }
    ensures count { IfOk result (λ count. vec_len bytes.new ≡ vec_len bytes.old + count) }
    ensures bound { OnOk result (vec_len bytes.new ≤ 2 ^ 28 + 1) }
    ensures ended { IfOk result (λ count. count ≡ 0
        → IfSome (read_file (F.state files.old)) (λ file. bytes.new.items ≡ file)) }
    ensures failed { IsErrOf result ReadAll.Failed → FailsOnOpenFile (F.state files.old) (F.state files.new) }
    ensures never_too_long { IsErrOf result ReadAll.TooLong → ⊥ }
    ensures never_falls { (F.state files.old).read_faults ≤ (F.state files.new).read_faults }
    ensures same_source { (F.state files.new).source ≡ (F.state files.old).source }
    ensures same_file { read_file (F.state files.new) ≡ read_file (F.state files.old) }
    ensures kept { (file : List ℕ) → (F.state files.new).holds file ≡ (F.state files.old).holds file }
    ensures writing { KeepsWriting (F.state files.old) (F.state files.new) }
{
    let room = buf.len().min(MOST_BYTES + 1 - bytes.len());
    let piece = &mut buf[..room];
    let count = files.next(piece)?;
    bytes.extend_from_slice(&piece[..count])?;
    Ok(count)
}

// Takes the pieces of a file that was just opened, until its end, a fault, or too many bytes.
fn take_pieces<F: Files>(alloc: Global, files: &mut F, buf: &mut [u8]) -> Result<Vec<u8>, ReadAll>
    requires some_room { 0 < length buf.old }
    requires begun { HasRead (F.state files.old) [] }
    ensures whole { IfOk result (λ bytes. IfSome (read_file (F.state files.old)) (λ file. bytes.items ≡ file)) }
    ensures all_taken { IfOk result (λ bytes. (length bytes.items ≡ (F.state files.new).taken)
        × ((F.state files.new).taken ≤ 2 ^ 28)) }
    ensures too_long { IsErrOf result ReadAll.TooLong → IsTooLong (F.state files.new) (read_file (F.state files.old)) }
    ensures failed { IsErrOf result ReadAll.Failed → FailsOnOpenFile (F.state files.old) (F.state files.new) }
    ensures never_falls { (F.state files.old).read_faults ≤ (F.state files.new).read_faults }
    ensures kept { (file : List ℕ) → (F.state files.new).holds file ≡ (F.state files.old).holds file }
    ensures writing { KeepsWriting (F.state files.old) (F.state files.new) }
{
    let mut bytes = Vec::new(alloc);
    'pieces: while bytes.len() <= MOST_BYTES {
        let count = take_piece(files, buf, &mut bytes)?;
        if count == 0 {
            return Ok(bytes);
        }
    }
    Err(ReadAll::TooLong)
}

// A buffer for one piece.
fn make_buffer(alloc: Global) -> Result<Vec<u8>, AllocError>
    ensures { IfOk result (λ buf. 0 < vec_len buf) }
{
    vec![in alloc; 0u8; PIECE_BYTES]
}

/// Reads a file whole, of at most 2^28 bytes. It opens the file once and takes pieces until the file's end, a fault,
/// or 2^28 + 1 bytes.
///
/// - `Failed`: the count of read faults rose in this call, at this file.
/// - `TooLong`: 2^28 + 1 bytes were taken.
/// - `Memory`: there was no room for the bytes.
pub fn read_all<F: Files>(alloc: Global, files: &mut F, name: &str) -> Result<Vec<u8>, ReadAll>
    ensures whole { IfOk result (λ bytes. IfSome ((F.state files.old).holds name.now) (λ file. bytes.items ≡ file)) }
    ensures all_taken { IfOk result (λ bytes. (length bytes.items ≡ (F.state files.new).taken)
        × ((F.state files.new).taken ≤ 2 ^ 28)) }
    ensures too_long { IsErrOf result ReadAll.TooLong
        → IsTooLong (F.state files.new) ((F.state files.old).holds name.now) }
    ensures failed { IsErrOf result ReadAll.Failed
        → ReadFaultAt (F.state files.old) (F.state files.new) (λ blamed. blamed ≡ name.now) }
    ensures never_falls { (F.state files.old).read_faults ≤ (F.state files.new).read_faults }
    ensures kept { (file : List ℕ) → (F.state files.new).holds file ≡ (F.state files.old).holds file }
    ensures writing { KeepsWriting (F.state files.old) (F.state files.new) }
{
    files.open(name)?;
    let mut buf = make_buffer(alloc)?;
    let bytes = take_pieces(alloc, files, &mut buf)?;
    Ok(bytes)
}
