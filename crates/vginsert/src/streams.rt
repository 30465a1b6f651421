//! The standard streams.

ghost use Rattle.std.specs.Prelude.{◌≡◌};

use std::fs::{self, File, OpenFile, OpenOptions};
use std::io::{self, ErrorKind, Write};
use std::os::fd::AsFd;
use std::rt::Files;

/// A file that is always there, and empty.
const EMPTY: &str = "/dev/null";

/// Three handles, which take the numbers of standard streams that are closed.
pub type Held<F> = (F, F, F);

/// Whether a stream is open.
fn is_open<S: AsFd>(stream: &S) -> bool {
    stream.as_fd().try_clone_to_owned().is_ok()
}

/// Where a standard stream is closed, opens files that take its number, so that no file which is read or written later
/// does. They are open for reading alone: a write to them fails as one to a closed stream does.
pub fn hold_streams(rt: &HostRuntime) -> io::Result<Option<Held<File>>> {
    if is_open(&rt.stdin()) && is_open(&rt.stdout()) && is_open(&rt.stderr()) {
        return Ok(None);
    }
    Ok(Some((open_empty(rt)?, open_empty(rt)?, open_empty(rt)?)))
}

fn open_empty<R: Files>(rt: &R) -> io::Result<R::File> {
    File::open(rt, EMPTY)
}

/// The name of standard output as a file.
const STANDARD_OUTPUT: &str = "/dev/stdout";

/// Standard output, whose flush hands on to the device, for good, what was written. std can only sync a file that it
/// opened itself, and so the flush opens the file once more that standard output is.
#[derive(Drop)]
pub struct Synced<'a, R: Files, W: Write + Drop> {
    rt: &'a R,
    to: W,
}

impl<'a, R: Files, W: Write + Drop> Synced<'a, R, W> {
    /// Over standard output.
    pub fn new(rt: &'a R, to: W) -> Synced<'a, R, W>
        ensures { result.to ≡ to }
    {
        Synced { rt, to }
    }
}

/// Hands on what was written to the file of this name. What is no regular file, as a pipe or a terminal, has nothing to
/// hand on, and a file that may not be opened cannot.
fn sync<R: Files>(rt: &R, name: &str) -> io::Result<()> {
    match fs::metadata(rt, name) {
        Ok(found) if found.is_file() => {}
        _ => return Ok(()),
    }
    let Ok(file) = OpenOptions::new().append(true).open(rt, name) else {
        return Ok(());
    };
    match file.sync_all() {
        Err(error) if error.kind() == ErrorKind::InvalidInput => Ok(()),
        done => done,
    }
}

impl<R: Files, W: Write + Drop> Write for Synced<'_, R, W> {
    ghost contents = { λ s. W.contents s.to };

    fn write(&mut self, bytes: &[u8]) -> io::Result<usize> {
        self.to.write(bytes)
    }

    fn flush(&mut self) -> io::Result<()> {
        self.to.flush()?;
        sync(self.rt, STANDARD_OUTPUT)
    }
}
