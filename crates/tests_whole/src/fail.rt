//! Runs in which one call fails: of reading, of writing, and of printing.
ghost use Rattle.std.specs.Prelude.{◌≤◌};

use crate::files::{
    BEST, BEST_SAYS, CHECK, CHECK_SAYS, Ending, WIRE, WIRE_SAYS, ends_over, small_files,
};
use std::alloc::Global;
use std::test::Fail;
use vg_store::MemFiles;

/// What an earlier run left in the files that mode `best` writes.
const BEFORE: &str = "// from before\n";

/// The files that it writes, in their order.
const OUTPUTS: [&str; 3] = ["o.v", "o.spef", "o.txt"];

/// How many bytes a call of files moves.
const CHUNK: usize = 64;

/// The files of the small design, of which these calls fail, and what an earlier run left, where there was one.
fn files_before(alloc: Global, failing: &[u64], before: Option<&str>) -> Result<MemFiles, Fail> {
    let mut files = small_files(alloc, CHUNK, failing)?;
    if let Some(text) = before {
        for name in &OUTPUTS {
            files.add(name, text.as_bytes())?;
        }
    }
    Ok(files)
}

/// The files that a run leaves where a call of this number fails, and whether it ends so.
fn failed_files(
    alloc: Global,
    line: &str,
    call: usize,
    before: Option<&str>,
    wanted: Ending<'_>,
) -> Result<(MemFiles, bool), Fail> {
    let mut files = files_before(alloc, &[call as u64], before)?;
    let ended = ends_over(alloc, line, &mut files, CHUNK, (&[], &[]), wanted)?;
    Ok((files, ended))
}

/// Whether a file holds this.
fn holds(files: &MemFiles, name: &str, text: Option<&[u8]>) -> bool {
    files.get(name) == text
}

/// How many calls reading the file of this name takes: one of `open`, one of `next` a piece, and one at the end.
fn reading_calls(files: &MemFiles, name: &str) -> usize {
    let bytes = files.get(name).map_or(0, |text| text.len());
    bytes.div_ceil(CHUNK).saturating_add(2)
}

/// A run, the files that it reads, in their order, and how it ends where the call behind all of reading fails.
type Reads = (&'static str, &'static [&'static str], Ending<'static>);

static READS: [Reads; 3] = [
    (WIRE, &["a.spef"], (0, WIRE_SAYS, "")),
    (
        BEST,
        &["a.spef", "l.lib", "v.v", "c.txt"],
        (6, "", "vginsert: write failed: o.v\n"),
    ),
    (
        CHECK,
        &["a.spef", "l.lib", "v.v", "c.txt", "k.txt"],
        (0, CHECK_SAYS, ""),
    ),
];

/// Whether a run in which this call fails tells that reading the file of this name failed, and all outputs are as
/// before.
fn fails_reading(alloc: Global, line: &str, call: usize, name: &str) -> Result<bool, Fail> {
    let told = format!(in alloc; "vginsert: read failed: {name}\n")?;
    let wanted = (5, "", told.as_str());
    let (files, ended) = failed_files(alloc, line, call, Some(BEFORE), wanted)?;
    let before = Some(BEFORE.as_bytes());
    Ok(ended && OUTPUTS.iter().all(|name| holds(&files, name, before)))
}

/// Whether a run ends so where this call fails.
fn ends_at(alloc: Global, line: &str, call: usize, wanted: Ending<'_>) -> Result<bool, Fail> {
    let (_, ended) = failed_files(alloc, line, call, None, wanted)?;
    Ok(ended)
}

/// Each call of reading fails once.
#[test]
fn reading_fails(rt: HostRuntime) -> Result<(), Fail> {
    let whole = small_files(rt.alloc(), CHUNK, &[])?;
    for (line, names, wanted) in &READS {
        let mut first = 0usize;
        for name in *names {
            let next = first.saturating_add(reading_calls(&whole, name));
            for call in first..next {
                assert!(rt;
                    fails_reading(rt.alloc(), line, call, name)?,
                    "{name} {call}"
                );
            }
            first = next;
        }
        assert!(rt; ends_at(rt.alloc(), line, first, *wanted)?, "{line}");
    }
    Ok(())
}

/// Whether the first outputs, so many, are whole, and the others as before.
fn are_whole_first(files: &MemFiles, whole: &MemFiles, count: usize, before: Option<&str>) -> bool {
    let kept = before.map(|text| text.as_bytes());
    OUTPUTS.iter().enumerate().all(|(number, name)| {
        if number < count {
            files.get(name) == whole.get(name)
        } else {
            holds(files, name, kept)
        }
    })
}

/// The files that a run of mode `best` leaves where this call fails, and whether it tells that writing the file of this
/// name failed.
fn failed_output(
    alloc: Global,
    call: usize,
    name: &str,
    before: Option<&str>,
) -> Result<(MemFiles, bool), Fail> {
    let told = format!(in alloc; "vginsert: write failed: {name}\n")?;
    failed_files(alloc, BEST, call, before, (6, "", told.as_str()))
}

/// The most calls of drafting one of the files.
const MOST_CALLS: usize = 1000;

/// How many calls of drafting an output fail as they have to, from this number on in a run: all outputs stay as before.
fn drafting_calls(
    alloc: Global,
    whole: &MemFiles,
    first: usize,
    name: &str,
    before: Option<&str>,
) -> Result<Option<usize>, Fail> {
    for count in 0..MOST_CALLS {
        let (files, ended) = failed_output(alloc, first.saturating_add(count), name, before)?;
        if !ended {
            return Ok(Some(count));
        }
        if !are_whole_first(&files, whole, 0, before) {
            return Ok(None);
        }
    }
    Ok(None)
}

/// How many calls drafting an output takes: one of `create`, one of `put` a piece, and one of `finish`.
fn calls_of_draft(whole: &MemFiles, name: &str) -> usize {
    let bytes = whole.get(name).map_or(0, |text| text.len());
    bytes.div_ceil(CHUNK).saturating_add(2)
}

/// The files that a run of mode `best` leaves in which no call fails.
fn whole_files(alloc: Global) -> Result<MemFiles, Fail> {
    let mut files = files_before(alloc, &[], None)?;
    let wanted = (0, BEST_SAYS, "");
    if ends_over(alloc, BEST, &mut files, CHUNK, (&[], &[]), wanted)? {
        Ok(files)
    } else {
        Err("another end".into())
    }
}

/// How many calls of reading mode `best` makes.
fn best_reading_calls(files: &MemFiles) -> usize {
    let mut calls = 0usize;
    for name in ["a.spef", "l.lib", "v.v", "c.txt"] {
        calls = calls.saturating_add(reading_calls(files, name));
    }
    calls
}

/// Whether a run of mode `best` in which no call fails but one that is not made ends with status 0 and all files whole.
fn ends_whole(
    alloc: Global,
    whole: &MemFiles,
    behind: usize,
    before: Option<&str>,
) -> Result<bool, Fail> {
    let (files, ended) = failed_files(alloc, BEST, behind, before, (0, BEST_SAYS, ""))?;
    Ok(ended && are_whole(&files, whole))
}

/// Each call of drafting and of publishing fails once, over files from before and where there are none. All outputs are
/// as before where drafting fails, and those that were published are whole where publishing does. The run in which the
/// call behind all of them is to fail ends with status 0.
#[test]
fn writing_fails(rt: HostRuntime) -> Result<(), Fail> {
    let whole = whole_files(rt.alloc())?;
    for before in [None, Some(BEFORE)] {
        let mut first = best_reading_calls(&whole);
        for name in &OUTPUTS {
            let calls = drafting_calls(rt.alloc(), &whole, first, name, before)?;
            assert!(rt;
                calls.is_some_and(|calls| calls >= calls_of_draft(&whole, name)),
                "{name}"
            );
            first = first.saturating_add(calls.unwrap_or(0));
        }
        for (at, name) in OUTPUTS.iter().enumerate() {
            let (files, ended) = failed_output(rt.alloc(), first, name, before)?;
            assert!(rt;
                ended && are_whole_first(&files, &whole, at, before),
                "{name}"
            );
            first = first.saturating_add(1);
        }
        assert!(rt; ends_whole(rt.alloc(), &whole, first, before)?);
    }
    Ok(())
}

/// Words, the calls of standard output and of standard error that fail, whether the netlist cannot be created, and how
/// the run ends.
type Told = (
    &'static str,
    &'static [u64],
    &'static [u64],
    bool,
    Ending<'static>,
);

/// Where standard error fails too, the status stays. All files were written before where standard output fails.
static TOLD: [Told; 6] = [
    (
        WIRE,
        &[1],
        &[],
        false,
        (6, "net n1 t", "vginsert: write failed: standard output\n"),
    ),
    (WIRE, &[1], &[2], false, (6, "net n1 t", "vginsert: write ")),
    ("--help", &[], &[0], false, (3, "", "")),
    (
        BEST,
        &[1],
        &[],
        false,
        (6, "net n1 s", "vginsert: write failed: standard output\n"),
    ),
    (BEST, &[0], &[2], false, (6, "", "vginsert: write ")),
    (BEST, &[], &[1], true, (6, "", "vginsert")),
];

/// Whether the outputs of a run of mode `best` are whole.
fn are_whole(files: &MemFiles, whole: &MemFiles) -> bool {
    OUTPUTS
        .iter()
        .all(|name| files.get(name) == whole.get(name))
}

/// Whether a run ends so where standard output and standard error move 8 bytes a call.
fn tells(alloc: Global, whole: &MemFiles, told: &Told) -> Result<bool, Fail> {
    let (line, out, err, refused, wanted) = *told;
    let mut fails = Vec::new(alloc);
    if refused {
        fails.push(best_reading_calls(whole) as u64)?;
    }
    let mut files = files_before(alloc, &fails, None)?;
    let ended = ends_over(alloc, line, &mut files, 8, (out, err), wanted)?;
    Ok(ended && are_whole(&files, whole) == (line == BEST && !refused))
}

#[test]
fn printing_fails(rt: HostRuntime) -> Result<(), Fail> {
    let whole = whole_files(rt.alloc())?;
    for told in &TOLD {
        assert!(rt; tells(rt.alloc(), &whole, told)?, "{}", told.4.2);
    }
    Ok(())
}

/// The first bytes of a text.
fn first_bytes(alloc: Global, text: &str, count: usize) -> Result<String, Fail> {
    let bytes = text.as_bytes();
    let first = String::from_utf8_lossy(alloc, &bytes[..count.min(bytes.len())])?;
    Ok(first)
}

/// Whether a run of mode `best` in which this call of standard output fails, which moves a byte a call, has printed the
/// bytes before, and has written all files.
fn fails_printing(alloc: Global, whole: &MemFiles, call: usize) -> Result<bool, Fail> {
    let printed = first_bytes(alloc, BEST_SAYS, call)?;
    let told = "vginsert: write failed: standard output\n";
    let mut files = files_before(alloc, &[], Some(BEFORE))?;
    let wanted = (6, printed.as_str(), told);
    let ended = ends_over(alloc, BEST, &mut files, 1, (&[call as u64], &[]), wanted)?;
    Ok(ended && are_whole(&files, whole))
}

/// Whether such a run ends with status 0 where only a call behind the last one is to fail.
fn prints_whole(alloc: Global, behind: usize) -> Result<bool, Fail> {
    let mut files = files_before(alloc, &[], None)?;
    let wanted = (0, BEST_SAYS, "");
    ends_over(alloc, BEST, &mut files, 1, (&[behind as u64], &[]), wanted)
}

/// Each call of standard output fails once, and last the one of `finish`.
#[test]
fn each_print_fails(rt: HostRuntime) -> Result<(), Fail> {
    let whole = whole_files(rt.alloc())?;
    let last = BEST_SAYS.len();
    for call in 0..=last {
        assert!(rt; fails_printing(rt.alloc(), &whole, call)?, "{call}");
    }
    assert!(rt; prints_whole(rt.alloc(), last + 1)?);
    Ok(())
}

/// Words of mode `best` that do not name where the parasitics go.
const REFUSED: &str =
    "--mode best --spef a.spef --lib l.lib --verilog v.v --cons c.txt --net n1 --out-verilog o.v --cert o.txt";

/// What is told of them.
const REFUSED_SAYS: &str = "vginsert: words refused: missing option --out-spef\n";

/// Whether these words end a run with status 3 where this call of standard error fails, which moves a byte a call and
/// has told the bytes before, and all outputs are as before.
fn fails_telling(alloc: Global, call: usize) -> Result<bool, Fail> {
    let told = first_bytes(alloc, REFUSED_SAYS, call)?;
    let mut files = files_before(alloc, &[], Some(BEFORE))?;
    let wanted = (3, "", told.as_str());
    let ended = ends_over(alloc, REFUSED, &mut files, 1, (&[], &[call as u64]), wanted)?;
    let before = Some(BEFORE.as_bytes());
    Ok(ended && OUTPUTS.iter().all(|name| holds(&files, name, before)))
}

/// Each call of standard error fails once, and last the one behind them, which is not made: the status stays.
#[test]
fn each_tell_fails(rt: HostRuntime) -> Result<(), Fail> {
    for call in 0..=REFUSED_SAYS.len() {
        assert!(rt; fails_telling(rt.alloc(), call)?, "{call}");
    }
    Ok(())
}
