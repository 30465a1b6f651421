//! Files that are written: what no clause says of them.
use crate::texts_files::{OLD, TEXT, made_files, reads};
use std::alloc::Global;
use std::fs::{self, Permissions};
use std::os::unix::fs::{MetadataExt, PermissionsExt, symlink};
use std::test::Fail;
use vg_answer::NewText;
use vg_patch::{Patch, Patched};
use vg_run::draft_text;
use vg_scan::Span;
use vg_store::{Files, RealFiles, draft_file, write_file};

const NEW: &[u8] = b"newer";

/// Whether the new bytes are written, by this chunk and where these calls fail, and what the file then holds: nothing
/// of them where a call fails. The other file has to stay, and a call that fails is not to keep the next write from
/// what it does.
fn leaves(
    alloc: Global,
    chunk: usize,
    fails: &[u64],
    name: &str,
    written: bool,
    held: Option<&[u8]>,
) -> Result<bool, Fail> {
    let mut files = made_files(alloc, chunk, fails)?;
    let first = write_file(&mut files, name, NEW).is_ok() == written
        && files.get(name) == held
        && files.get("full") == Some(TEXT);
    let again = write_file(&mut files, name, OLD).is_ok() && files.get(name) == Some(OLD);
    Ok(first && again)
}

/// How many bytes a call takes, the calls that fail, the file, whether it is written, and what it then holds. By chunks
/// of 2 the new bytes take six calls: `create`, three of `put`, `finish` and `publish`.
static WRITES: [(usize, &[u64], &str, bool, Option<&[u8]>); 10] = [
    (64, &[], "old", true, Some(NEW)),
    (2, &[], "old", true, Some(NEW)),
    (2, &[], "fresh", true, Some(NEW)),
    (2, &[0], "old", false, Some(OLD)),
    (2, &[0], "fresh", false, None),
    (2, &[1], "old", false, Some(OLD)),
    (2, &[2], "old", false, Some(OLD)),
    (2, &[3], "fresh", false, None),
    (2, &[4], "old", false, Some(OLD)),
    (2, &[5], "old", false, Some(OLD)),
];

#[test]
fn writes_files_whole_or_not_at_all(rt: HostRuntime) -> Result<(), Fail> {
    for (chunk, fails, name, written, held) in &WRITES {
        assert!(rt;
            leaves(rt.alloc(), *chunk, fails, name, *written, *held)?,
            "{name} {fails:?}"
        );
    }
    Ok(())
}

/// A text of which the first byte, a part, none before a place, and the last byte are replaced.
fn changed(alloc: Global) -> Result<NewText, Fail> {
    let text = Vec::from_slice(alloc, b"one two three")?;
    let mut patch = Patch::new(alloc);
    patch.replace(Span { from: 0, to: 1 }, b"O")?;
    patch.replace(Span { from: 4, to: 7 }, b"")?;
    patch.replace(Span { from: 8, to: 8 }, b"and ")?;
    patch.replace(Span { from: 12, to: 13 }, b"e!")?;
    Ok(NewText::Patched(Patched::new(text, patch)))
}

/// A text that was made of three pieces, one of them empty.
fn made(alloc: Global) -> Result<NewText, Fail> {
    let mut pieces = Vec::new(alloc);
    for piece in [b"One ".as_slice(), b"", b" and three!"] {
        pieces.push(Vec::from_slice(alloc, piece)?)?;
    }
    Ok(NewText::Made(pieces))
}

/// Whether a draft of the text is made, and the file holds it once that is published, by chunks of several sizes.
fn drafts(alloc: Global, text: &NewText) -> Result<bool, Fail> {
    for chunk in [1, 3, 64] {
        let mut files = made_files(alloc, chunk, &[])?;
        let Ok(()) = draft_text(&mut files, "old", text) else {
            return Ok(false);
        };
        let stays = files.get("old") == Some(OLD);
        let Ok(()) = files.publish() else {
            return Ok(false);
        };
        if !(stays && files.get("old") == Some(b"One  and three!")) {
            return Ok(false);
        }
    }
    Ok(true)
}

#[test]
fn writes_texts_by_pieces(rt: HostRuntime) -> Result<(), Fail> {
    assert!(rt; drafts(rt.alloc(), &changed(rt.alloc())?)?);
    assert!(rt; drafts(rt.alloc(), &made(rt.alloc())?)?);
    Ok(())
}

/// Reads a file while a draft of it is written.
fn reads_on(alloc: Global) -> Result<bool, Fail> {
    let mut files = made_files(alloc, 2, &[])?;
    let mut buf = [0u8; 4];
    files.open("old")?;
    files.create("old")?;
    let before = files.next(&mut buf)?;
    let empty = files.put(b"")?;
    let put = files.put(NEW)?;
    let after = files.next(&mut buf)?;
    Ok(before == 2 && empty == 0 && put == 2 && after == 1 && buf == *b"dl\0\0")
}

#[test]
fn reads_what_a_file_held(rt: HostRuntime) -> Result<(), Fail> {
    assert!(rt; reads_on(rt.alloc())?);
    Ok(())
}

const WRITTEN: &str = "vg_store_whole.tmp";

// The file stands where the test runs, and is removed again. No file can stand at the other paths, or take the bytes.
#[test]
fn writes_the_systems_files(rt: HostRuntime) -> Result<(), Fail> {
    let mut files = RealFiles::new(&rt, rt.alloc());
    for bytes in [NEW, b"", TEXT] {
        assert!(rt; write_file(&mut files, WRITTEN, bytes).is_ok());
        assert!(rt; reads(rt.alloc(), &mut files, WRITTEN, bytes));
    }
    fs::remove_file(&rt, WRITTEN)?;
    for path in [".", "vg_store_none/whole.tmp", "/dev/full"] {
        assert!(rt; write_file(&mut files, path, NEW).is_err(), "{path}");
    }
    Ok(())
}

const LINKED: &str = "vg_store_linked.tmp";

const LINK: &str = "vg_store_link.tmp";

/// Whether a write to a link replaces the file that it names, which keeps its permissions, and the link stays.
fn replaces_linked(rt: &HostRuntime) -> Result<bool, Fail> {
    fs::write(rt, LINKED, OLD)?;
    fs::set_permissions(rt, LINKED, Permissions::from_mode(0o640))?;
    symlink(rt, LINKED, LINK)?;
    let mut files = RealFiles::new(rt, rt.alloc());
    let is_written = write_file(&mut files, LINK, NEW).is_ok();
    let is_read = reads(rt.alloc(), &mut files, LINKED, NEW);
    let stays = fs::symlink_metadata(rt, LINK)?.is_symlink();
    let mode = fs::metadata(rt, LINKED)?.mode();
    fs::remove_file(rt, LINK)?;
    fs::remove_file(rt, LINKED)?;
    Ok(is_written && is_read && stays && mode & 0o777 == 0o640)
}

#[test]
fn replaces_what_a_link_names(rt: HostRuntime) -> Result<(), Fail> {
    assert!(rt; replaces_linked(&rt)?);
    Ok(())
}

const DRAFTED: &str = "vg_store_drafted.tmp";

/// The first draft in the folder where the test runs.
const DRAFT: &str = ".vginsert-0";

/// Whether a draft that waits has the only one of its place, and leaves nothing when it is dropped.
fn drafts_once(rt: &HostRuntime) -> Result<bool, Fail> {
    let alloc = rt.alloc();
    let again = format!(in alloc; "./{DRAFTED}")?;
    let mut files = RealFiles::new(rt, alloc);
    let is_drafted = draft_file(&mut files, DRAFTED, NEW).is_ok() && fs::exists(rt, DRAFT)?;
    let is_refused = draft_file(&mut files, again.as_str(), NEW).is_err();
    let is_absent = !fs::exists(rt, DRAFTED)?;
    drop(files);
    Ok(is_drafted && is_refused && is_absent && !fs::exists(rt, DRAFT)?)
}

#[test]
fn drafts_a_file_once(rt: HostRuntime) -> Result<(), Fail> {
    assert!(rt; drafts_once(&rt)?);
    Ok(())
}
