//! The program: the top call over the real files and streams.
#![tactic(auto)]

mod streams;

use crate::streams::{Synced, hold_streams};
use std::alloc::AllocError;
use std::env;
use std::io::ErrorKind;
use std::process::ExitCode;
use vg_store::{Out, RealFiles, RealOut, put_all};
use vginsert_top::run;

/// The status where the system gives no words, or no standard streams.
const NO_SYSTEM: u8 = 9;

/// The status when out of memory.
const NO_MEMORY: u8 = 7;

/// The size of a block that is given back before anything is read. The system's allocator (glibc, mallopt(3):
/// M_MMAP_THRESHOLD) then takes blocks of up to this size from its heap, where what one file took serves the next step,
/// in place of pages of their own that the system has to clear.
const FIRST_BLOCK: usize = 1 << 24;

/// Takes a block and gives it back, if there is room.
fn warm_up(rt: &HostRuntime) -> bool {
    let block: Result<Vec<u8>, AllocError> = Vec::with_capacity(rt.alloc(), FIRST_BLOCK);
    block.is_ok()
}

/// Tells that there is no memory for the words.
fn out_of_memory<E: Out>(err: &mut E) -> ExitCode {
    let _ = put_all(err, b"vginsert: out of memory\n");
    ExitCode::from(NO_MEMORY)
}

/// Tells that the words are no text.
fn not_a_text<E: Out>(err: &mut E) -> ExitCode {
    let _ = put_all(err, b"vginsert: a word is not UTF-8\n");
    ExitCode::from(NO_SYSTEM)
}

fn main(rt: HostRuntime) -> ExitCode {
    let Ok(_held) = hold_streams(&rt) else {
        return ExitCode::from(NO_SYSTEM);
    };
    let mut err = RealOut::new(rt.stderr());
    let args = match env::args(&rt) {
        Ok(args) => args,
        Err(error) if error.kind() == ErrorKind::OutOfMemory => return out_of_memory(&mut err),
        Err(_) => return not_a_text(&mut err),
    };
    let _ = warm_up(&rt);
    let mut files = RealFiles::new(&rt, rt.alloc());
    let mut out = RealOut::new(Synced::new(&rt, rt.stdout()));
    // The first word is the program's own name.
    let words: Result<Vec<String>, AllocError> = args.skip(1).collect(rt.alloc());
    let Ok(words) = words else {
        return out_of_memory(&mut err);
    };
    let status = run(rt.alloc(), &words, &mut files, &mut out, &mut err);
    ExitCode::from(status)
}
