//! Runs whose files and outputs move few bytes a call, and a net with the greatest number of nodes.
ghost use Rattle.std.specs.Prelude.{◌≤◌};

use crate::files::{
    BEST, BEST_SAYS, CHECK, CHECK_SAYS, Ending, FRONTIER, FRONTIER_SAYS, HEADER, TIME, TIME_SAYS,
    WIRE, WIRE_SAYS, ends_over, small_files,
};
use std::alloc::Global;
use std::test::Fail;
use vg_store::MemFiles;

/// Words, and how the run ends.
pub(crate) static RUNS: [(&str, Ending<'static>); 8] = [
    (WIRE, (0, WIRE_SAYS, "")),
    (TIME, (0, TIME_SAYS, "")),
    (BEST, (0, BEST_SAYS, "")),
    (FRONTIER, (0, FRONTIER_SAYS, "")),
    (CHECK, (0, CHECK_SAYS, "")),
    (
        "--mode wire --spef a.spef --net n7",
        (2, "net n7 refused 1 UnknownNet\n", ""),
    ),
    (
        "--mode wire --spef v.v --net n1",
        (4, "", "vginsert: v.v: Header line 1\n"),
    ),
    ("--help", (3, "", "vginsert: words refused\n")),
];

/// Whether a run ends so, where files and outputs move so many bytes a call.
fn ends(alloc: Global, line: &str, chunk: usize, wanted: Ending<'_>) -> Result<bool, Fail>
    requires { 1 ≤ chunk }
{
    let mut files = small_files(alloc, chunk, &[])?;
    ends_over(alloc, line, &mut files, chunk, (&[], &[]), wanted)
}

#[test]
fn moves_few_bytes_a_call(rt: HostRuntime) -> Result<(), Fail> {
    for (line, wanted) in &RUNS {
        assert!(rt; ends(rt.alloc(), line, 1, *wanted)?, "{line}");
        assert!(rt; ends(rt.alloc(), line, 64, *wanted)?, "{line}");
        assert!(rt; ends(rt.alloc(), line, 1 << 20, *wanted)?, "{line}");
    }
    Ok(())
}

/// A file whose net is a chain of so many resistors from its driver.
fn chain(alloc: Global, resistors: usize) -> Result<Vec<u8>, Fail> {
    let mut text = Vec::from_slice(alloc, HEADER.as_bytes())?;
    text.extend_from_slice(
        b"*D_NET n 0
*CONN
*P n I
*P z O
*RES
1 n n:1 1
",
    )?;
    'resistor: for i in 2..resistors {
        let line = format!(in alloc; "1 n:{} n:{} 1\n", i - 1, i)?;
        text.extend_from_slice(line.as_bytes())?;
    }
    let line = format!(in alloc; "1 n:{} z 1\n*END\n", resistors.saturating_sub(1))?;
    text.extend_from_slice(line.as_bytes())?;
    Ok(text)
}

/// Whether the run for such a chain ends so.
fn chain_ends(alloc: Global, resistors: usize, wanted: Ending<'_>) -> Result<bool, Fail> {
    let mut files = MemFiles::new(alloc, 1 << 24, &[])?;
    files.add("a.spef", &chain(alloc, resistors)?)?;
    let line = "--mode wire --spef a.spef --net n";
    ends_over(alloc, line, &mut files, 1 << 24, (&[], &[]), wanted)
}

/// The greatest number of nodes of a net, and one more.
static CHAINS: [(usize, Ending<'static>); 2] = [
    (65_535, (0, "net n total 0\nsink z 0\n", "")),
    (65_536, (2, "net n refused 16 TooLarge\n", "")),
];

#[test]
fn counts_nodes(rt: HostRuntime) -> Result<(), Fail> {
    for (resistors, wanted) in &CHAINS {
        assert!(rt; chain_ends(rt.alloc(), *resistors, *wanted)?, "{resistors}");
    }
    Ok(())
}
