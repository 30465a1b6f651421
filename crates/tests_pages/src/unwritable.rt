//! Whether outputs that the system does not let the program write end a run with status 6, and with the file's name.

use crate::report::words_of;
use std::alloc::Global;
use vg_num::Memory;
use vg_store::{Files, MemOut};
use vginsert_top::run;

/// A file in a folder that is not there, a folder, and a device that is full.
const UNWRITABLE: [&str; 3] = ["missing/out.v", "examples", "/dev/full"];

/// The words of mode `best` but for the netlist that is written, and so the first output.
const WORDS: &str =
    "--mode best --spef examples/soc.spef --lib examples/soc.lib --verilog examples/soc.v --cons examples/soc.cons --net acc[0] --out-spef missing/out.spef --out-verilog ";

/// The most bytes that an output takes at once.
const CHUNK: usize = 1 << 16;

/// Whether a run that writes its netlist there prints nothing and tells that writing failed.
fn fails_at<F: Files>(alloc: Global, files: &mut F, name: &str) -> Result<bool, Memory> {
    let command = format!(in alloc; "{WORDS}{name}")?;
    let words = words_of(alloc, command.as_bytes())?;
    let told = format!(in alloc; "vginsert: write failed: {name}\n")?;
    let mut out = MemOut::new(alloc, CHUNK, &[])?;
    let mut err = MemOut::new(alloc, CHUNK, &[])?;
    let status = run(alloc, &words, files, &mut out, &mut err);
    Ok(status == 6 && out.as_bytes().is_empty() && err.as_bytes() == told.as_bytes())
}

/// Tells whether all of these outputs end a run so, or which do not.
pub(crate) fn report_unwritable<F: Files>(
    alloc: Global,
    files: &mut F,
    report: &mut String,
) -> Result<bool, Memory> {
    let mut all = true;
    for name in &UNWRITABLE {
        if !fails_at(alloc, files, name)? {
            writeln!(report, "{name}: no status 6")?;
            all = false;
        }
    }
    if all {
        writeln!(report, "{} outputs cannot be written", UNWRITABLE.len())?;
    }
    Ok(all)
}
