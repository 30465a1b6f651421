//! Runs over files and outputs that never fail.

use crate::files::{BUFFERED, CONS, HEADER, LIB, NET, NETLIST, words_of};
use crate::pieces::RUNS;
use std::alloc::Global;
use std::test::Fail;
use vg_store::{SureFiles, SureOut, read_all, write_file};
use vginsert_top::run;

/// A run whose input was not added, and so reads as an empty file.
const EMPTY: &str = "--mode wire --spef no.spef --net n1";

/// The files of the small design.
fn sure_files(alloc: Global) -> Result<SureFiles, Fail> {
    let mut files = SureFiles::new(alloc);
    let spef = format!(in alloc; "{HEADER}{NET}")?;
    files.add("a.spef", spef.as_bytes())?;
    files.add("l.lib", LIB.as_bytes())?;
    files.add("v.v", NETLIST.as_bytes())?;
    files.add("c.txt", CONS.as_bytes())?;
    files.add("k.txt", BUFFERED.as_bytes())?;
    Ok(files)
}

/// The status of a run over these files.
fn status(alloc: Global, line: &str, files: &mut SureFiles) -> Result<u8, Fail> {
    let words = words_of(alloc, line)?;
    let mut out = SureOut::new();
    let mut err = SureOut::new();
    Ok(run(alloc, &words, files, &mut out, &mut err))
}

/// The statuses are those of the runs over files that can fail, of which none does.
#[test]
fn ends_with_the_same_status(rt: HostRuntime) -> Result<(), Fail> {
    let mut files = sure_files(rt.alloc())?;
    for (line, wanted) in &RUNS {
        let found = status(rt.alloc(), line, &mut files)?;
        assert!(rt; found == wanted.0, "{line} {found}");
    }
    let found = status(rt.alloc(), EMPTY, &mut files)?;
    assert!(rt; found == 4, "{found}");
    Ok(())
}

/// A file that is written is told no longer, and reads as an empty one.
#[test]
fn drops_what_is_written(rt: HostRuntime) -> Result<(), Fail> {
    let mut files = sure_files(rt.alloc())?;
    assert!(rt; read_all(rt.alloc(), &mut files, "c.txt")?.as_slice() == CONS.as_bytes());
    assert!(rt; write_file(&mut files, "c.txt", b"other").is_ok());
    assert!(rt; read_all(rt.alloc(), &mut files, "c.txt")?.is_empty());
    assert!(rt; read_all(rt.alloc(), &mut files, "v.v")?.as_slice() == NETLIST.as_bytes());
    Ok(())
}
