//! Runs over the files of made-up designs, beside what mode `gen` tells of them.
ghost use Rattle.std.specs.Prelude.{◌≤◌};

use crate::files::printed;
use std::alloc::Global;
use std::test::Fail;
use vg_gen::generate;
use vg_store::MemFiles;

/// The words of mode `best`.
const BEST: &str =
    "--mode best --spef a.spef --lib l.lib --verilog v.v --cons c.txt --net g --out-spef o.spef --out-verilog o.v --cert k.txt";

const CHECK: &str =
    "--mode check --spef a.spef --lib l.lib --verilog v.v --cons c.txt --net g --cert k.txt";

const FRONTIER: &str =
    "--mode frontier --spef a.spef --lib l.lib --verilog v.v --cons c.txt --net g";

/// The files of the made-up design of a size.
fn made_files(alloc: Global, size: u32) -> Result<MemFiles, Fail>
    requires least { 1 ≤ size }
    requires most { size ≤ 4000 }
{
    let made = generate(alloc, size)?;
    let mut files = MemFiles::new(alloc, 4096, &[])?;
    files.add("a.spef", &made.spef)?;
    files.add("l.lib", &made.lib)?;
    files.add("v.v", &made.verilog)?;
    files.add("c.txt", &made.cons)?;
    Ok(files)
}

/// What mode `gen` tells of a size.
fn sums_of(alloc: Global, size: u32, files: &mut MemFiles) -> Result<String, Fail> {
    let line = format!(in alloc; "--mode gen --size {size}")?;
    let (_, sums) = printed(alloc, line.as_str(), files)?;
    Ok(sums)
}

/// What mode `check` prints of the certificate that comes with this report of mode `best`.
fn checked_line(alloc: Global, report: &str) -> Result<String, Fail> {
    match report.split(' ').nth(3) {
        Some(slack) => Ok(format!(in alloc; "net g certificate valid slack {slack}\n")?),
        None => Ok(format!(in alloc; "net g certificate valid none\n")?),
    }
}

/// How many lines of a certificate begin with a number.
fn count_entries(cert: &str) -> usize {
    let is_entry = |line: &&str| {
        let first = line.bytes().next();
        first.is_some_and(|byte| byte == b'-' || byte.is_ascii_digit())
    };
    cert.lines().filter(is_entry).count()
}

/// Whether the certificate of the net of a made-up design is found valid, and has as many entries as mode `gen` tells.
fn is_made_right(alloc: Global, size: u32) -> Result<bool, Fail>
    requires least { 1 ≤ size }
    requires most { size ≤ 4000 }
{
    let mut files = made_files(alloc, size)?;
    let (status, report) = printed(alloc, BEST, &mut files)?;
    let (checked, said) = printed(alloc, CHECK, &mut files)?;
    let valid = status < 2 && checked == 0 && said == checked_line(alloc, report.as_str())?;
    let sums = sums_of(alloc, size, &mut files)?;
    let cert = String::from_utf8_lossy(alloc, files.get("k.txt").unwrap_or(b""))?;
    let entries = format!(in alloc;
        " entries {} certificate valid\n",
        count_entries(cert.as_str())
    )?;
    Ok(valid && sums.ends_with(entries.as_str()))
}

/// Whether the frontier of a made-up net begins with its slack without a cell and ends with that of a best placement,
/// as mode `gen` tells them.
fn ends_at_best(alloc: Global, size: u32) -> Result<bool, Fail>
    requires least { 1 ≤ size }
    requires most { size ≤ 4000 }
{
    let mut files = made_files(alloc, size)?;
    let sums = sums_of(alloc, size, &mut files)?;
    let (status, front) = printed(alloc, FRONTIER, &mut files)?;
    let (Some(bare), Some(best)) = (sums.split(' ').nth(4), sums.split(' ').nth(6)) else {
        return Ok(false);
    };
    let first = format!(in alloc; "\npoint 0 {bare} cells 0\npoint ")?;
    let last = format!(in alloc; " {best} cells ")?;
    Ok(status == 0 && front.contains(first.as_str()) && front.contains(last.as_str()))
}

/// Of these designs the second has no placement.
#[test]
fn made_up_designs(rt: HostRuntime) -> Result<(), Fail> {
    assert!(rt; is_made_right(rt.alloc(), 50)?);
    assert!(rt; is_made_right(rt.alloc(), 100)?);
    assert!(rt; ends_at_best(rt.alloc(), 60)?);
    Ok(())
}
