//! Files and outputs that fail, or move few bytes a call, and what the system gives.
use std::alloc::Global;
use std::test::Fail;
use vg_store::{Files, MemFiles, MemOut, Out, ReadAll, RealFiles, RealOut, put_all, read_all};

pub(crate) const TEXT: &[u8] = b"a file";

pub(crate) const OLD: &[u8] = b"old";

/// Names of files, and what they hold. A later one of a name takes the place of an earlier one.
static FILES: [(&str, &[u8]); 4] = [
    ("full", b"an older file"),
    ("empty", b""),
    ("full", TEXT),
    ("old", OLD),
];

/// Files that move so many bytes a call, where these calls fail.
pub(crate) fn made_files(alloc: Global, chunk: usize, fails: &[u64]) -> Result<MemFiles, Fail> {
    if chunk < 1 {
        return Err("no bytes a call".into());
    }
    let mut files = MemFiles::new(alloc, chunk, fails)?;
    for (name, bytes) in &FILES {
        files.add(name, bytes)?;
    }
    Ok(files)
}

pub(crate) fn reads<F: Files>(alloc: Global, files: &mut F, name: &str, bytes: &[u8]) -> bool {
    match read_all(alloc, files, name) {
        Ok(read) => read.as_slice() == bytes,
        Err(_) => false,
    }
}

fn misses<F: Files>(alloc: Global, files: &mut F, name: &str) -> bool {
    matches!(read_all(alloc, files, name), Err(ReadAll::Failed))
}

/// Whether the file of a name is missed, where one is given, and the two files can be read behind it.
fn reads_behind(
    alloc: Global,
    chunk: usize,
    fails: &[u64],
    missed: Option<&str>,
) -> Result<bool, Fail> {
    let mut files = made_files(alloc, chunk, fails)?;
    if let Some(name) = missed {
        if !misses(alloc, &mut files, name) {
            return Ok(false);
        }
    }
    Ok(
        reads(alloc, &mut files, "full", TEXT)
            && reads(alloc, &mut files, "empty", b"")
            && reads(alloc, &mut files, "full", TEXT),
    )
}

/// How many bytes a call moves, the calls that fail, and the file that is missed. At a chunk of 4 the file `full` takes
/// one call of `open` and three of `next`, and `empty` one of each.
static READ: [(usize, &[u64], Option<&str>); 9] = [
    (1, &[], None),
    (4, &[], None),
    (1 << 20, &[], None),
    (4, &[], Some("fuller")),
    (4, &[0], Some("full")),
    (4, &[1], Some("full")),
    (4, &[2], Some("full")),
    (4, &[3], Some("full")),
    (4, &[10], None),
];

#[test]
fn reads_again_after_each_failing_call(rt: HostRuntime) -> Result<(), Fail> {
    for (chunk, fails, missed) in &READ {
        assert!(rt;
            reads_behind(rt.alloc(), *chunk, fails, *missed)?,
            "{chunk} {fails:?}"
        );
    }
    Ok(())
}

fn gets(alloc: Global) -> Result<bool, Fail> {
    let files = made_files(alloc, 4, &[])?;
    Ok(files.get("full") == Some(TEXT) && files.get("fuller").is_none())
}

#[test]
fn finds_files_by_name(rt: HostRuntime) -> Result<(), Fail> {
    assert!(rt; gets(rt.alloc())?);
    Ok(())
}

/// Whether this is written, and whether all could be.
fn writes(
    alloc: Global,
    chunk: usize,
    fails: &[u64],
    prefix: &[u8],
    all: bool,
) -> Result<bool, Fail> {
    if chunk < 1 {
        return Err("no bytes a call".into());
    }
    let mut out = MemOut::new(alloc, chunk, fails)?;
    let is_put = put_all(&mut out, TEXT).is_ok()
        && put_all(&mut out, b"").is_ok()
        && put_all(&mut out, b"!").is_ok()
        && out.finish().is_ok();
    Ok(is_put == all && out.as_bytes() == prefix)
}

/// How many bytes a call takes, the calls that fail, what is written, and whether it is all. By 3 bytes the text takes
/// two calls, and `finish` one behind them.
static WRITTEN_PARTS: [(usize, &[u64], &[u8], bool); 8] = [
    (1, &[], b"a file!", true),
    (3, &[], b"a file!", true),
    (1 << 20, &[], b"a file!", true),
    (3, &[0], b"", false),
    (3, &[1], b"a f", false),
    (3, &[2], TEXT, false),
    (3, &[3], b"a file!", false),
    (3, &[4], b"a file!", true),
];

#[test]
fn writes_a_prefix_where_a_call_fails(rt: HostRuntime) -> Result<(), Fail> {
    for (chunk, fails, prefix, all) in &WRITTEN_PARTS {
        assert!(rt;
            writes(rt.alloc(), *chunk, fails, prefix, *all)?,
            "{chunk} {fails:?}"
        );
    }
    Ok(())
}

const WRITTEN: &str = "vg_store_written.tmp";

fn is_written(rt: &HostRuntime) -> Result<bool, Fail> {
    let mut out = RealOut::new(std::fs::create(rt, WRITTEN)?);
    Ok(out.put(b"") == Ok(0) && put_all(&mut out, TEXT).is_ok())
}

// The file stands where the test runs, and is removed again.
#[test]
fn reads_and_writes_the_systems_files(rt: HostRuntime) -> Result<(), Fail> {
    assert!(rt; is_written(&rt)?);
    let mut files = RealFiles::new(&rt, rt.alloc());
    assert!(rt; reads(rt.alloc(), &mut files, WRITTEN, TEXT));
    std::fs::remove_file(&rt, WRITTEN)?;
    assert!(rt; misses(rt.alloc(), &mut files, WRITTEN));
    Ok(())
}
