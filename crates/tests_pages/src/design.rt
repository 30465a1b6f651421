//! Whether mode `time` finds in the files that mode `best` writes the slack that it printed, for each net of a design,
//! whether a run over all nets prints what the runs over each of them do, and whether mode `check` finds the
//! certificates of the nets valid.

use crate::report::words_of;
use std::alloc::Global;
use vg_num::Memory;
use vg_store::{Files, MemOut};
use vginsert_top::run;

/// The nets of the design `examples/soc.*`, in the order of its parasitics.
const NETS: [&str; 28] = [
    "clk",
    "en",
    "sel",
    "rdy",
    "wdata[0]",
    "wdata[1]",
    "wdata[2]",
    "wdata[3]",
    "rdata[0]",
    "rdata[1]",
    "rdata[2]",
    "rdata[3]",
    "clknet_0_clk",
    "clknet_1_0_clk",
    "clknet_1_1_clk",
    "clknet_1_2_clk",
    "net1",
    "ctl/sel_n",
    "next[0]",
    "next[1]",
    "next[2]",
    "next[3]",
    "acc[0]",
    "acc[1]",
    "acc[2]",
    "acc[3]",
    "_04_",
    "_05_",
];

/// The words of mode `best` but for the net, or for all nets.
const BEST: &str =
    "--mode best --spef examples/soc.spef --lib examples/soc.lib --verilog examples/soc.v --cons examples/soc.cons --out-spef out.spef --out-verilog out.v";

/// Those of mode `time` for the files that it writes.
const TIME: &str =
    "--mode time --spef out.spef --lib examples/soc.lib --verilog out.v --cons examples/soc.cons";

/// Those of mode `check` for a certificate that it writes.
const CHECK: &str =
    "--mode check --spef examples/soc.spef --lib examples/soc.lib --verilog examples/soc.v --cons examples/soc.cons";

/// The most bytes that an output takes at once.
const CHUNK: usize = 1 << 16;

/// What runs in mode `best` print for nets, one after another, and what is to be printed in mode `time` for what they
/// write.
#[derive(Drop)]
struct Lines {
    best: String,
    time: String,
}

impl Lines {
    /// With the report of mode `best` for one net more, which may be empty.
    fn add(&mut self, best: &str) -> Result<(), Memory> {
        self.best.push_str(best)?;
        // The net and its slack.
        for word in best.split(' ').take(4) {
            self.time.push_str(word)?;
            self.time.push_str(" ")?;
        }
        self.time.push_str("polarity right\n")?;
        Ok(())
    }
}

/// No lines.
fn no_lines(alloc: Global) -> Lines {
    Lines {
        best: String::new(alloc),
        time: String::new(alloc),
    }
}

/// What a run with these words prints, with those that tell for which nets; nothing where it does not end with status
/// 0.
fn printed<F: Files>(
    alloc: Global,
    files: &mut F,
    words: &str,
    nets: &str,
) -> Result<String, Memory> {
    let command = format!(in alloc; "{words} {nets}")?;
    let words = words_of(alloc, command.as_bytes())?;
    let mut out = MemOut::new(alloc, CHUNK, &[])?;
    let mut err = MemOut::new(alloc, CHUNK, &[])?;
    if run(alloc, &words, files, &mut out, &mut err) != 0 {
        return Ok(String::new(alloc));
    }
    Ok(String::from_utf8_lossy(alloc, out.as_bytes())?)
}

/// Whether the nets that these words tell re-time to the slacks that were printed for them, and no sink has the wrong
/// polarity.
fn retime<F: Files>(
    alloc: Global,
    files: &mut F,
    nets: &str,
    lines: &Lines,
) -> Result<bool, Memory> {
    let time = printed(alloc, files, TIME, nets)?;
    Ok(time == lines.time)
}

/// Whether a net of the design re-times to the slack that was printed. Adds its lines to those of all nets.
fn retimes<F: Files>(
    alloc: Global,
    files: &mut F,
    net: &str,
    all: &mut Lines,
) -> Result<bool, Memory> {
    let nets = format!(in alloc; "--net {net}")?;
    let best = printed(alloc, files, BEST, nets.as_str())?;
    let mut lines = no_lines(alloc);
    lines.add(best.as_str())?;
    all.add(best.as_str())?;
    retime(alloc, files, nets.as_str(), &lines)
}

/// Tells whether each net of the design re-times to the slack that was printed, or which do not. Adds the lines of the
/// nets.
fn report_nets<F: Files>(
    alloc: Global,
    files: &mut F,
    lines: &mut Lines,
    report: &mut String,
) -> Result<bool, Memory> {
    let mut all = true;
    for net in &NETS {
        if !retimes(alloc, files, net, lines)? {
            writeln!(report, "{net}: another slack in the written files")?;
            all = false;
        }
    }
    if all {
        writeln!(report, "examples/soc: {} nets re-time", NETS.len())?;
    }
    Ok(all)
}

/// Whether a run over all nets prints what the runs over each of them did, and all nets re-time in what it writes.
fn are_as_one_by_one<F: Files>(
    alloc: Global,
    files: &mut F,
    lines: &Lines,
) -> Result<bool, Memory> {
    let best = printed(alloc, files, BEST, "--all")?;
    let retimed = retime(alloc, files, "--all", lines)?;
    Ok(best == lines.best && retimed)
}

/// Whether mode `check` finds the certificate valid that mode `best` writes of a net, with the slack that is printed.
fn certifies<F: Files>(alloc: Global, files: &mut F, net: &str) -> Result<bool, Memory> {
    let nets = format!(in alloc; "--net {net} --cert out.cert")?;
    let best = printed(alloc, files, BEST, nets.as_str())?;
    let check = printed(alloc, files, CHECK, nets.as_str())?;
    let slack = best.split(' ').nth(3).unwrap_or("");
    let valid = format!(in alloc; "net {net} certificate valid slack {slack}\n")?;
    Ok(check == valid)
}

/// Tells whether the certificates of all nets are found valid, or which are not.
fn report_certificates<F: Files>(
    alloc: Global,
    files: &mut F,
    report: &mut String,
) -> Result<bool, Memory> {
    let mut all = true;
    for net in &NETS {
        if !certifies(alloc, files, net)? {
            writeln!(report, "{net}: a certificate that is not valid")?;
            all = false;
        }
    }
    if all {
        writeln!(
            report,
            "examples/soc: {} certificates are valid",
            NETS.len()
        )?;
    }
    Ok(all)
}

/// Tells whether the nets of the design re-time to the slacks that were printed, one by one and all at once, and
/// whether their certificates are valid.
pub(crate) fn report_design<F: Files>(
    alloc: Global,
    files: &mut F,
    report: &mut String,
) -> Result<bool, Memory> {
    let mut lines = no_lines(alloc);
    let retimed = report_nets(alloc, files, &mut lines, report)?;
    let same = are_as_one_by_one(alloc, files, &lines)?;
    if same {
        writeln!(report, "examples/soc: all nets at once as one by one")?;
    } else {
        writeln!(report, "examples/soc: all nets at once not as one by one")?;
    }
    let certified = report_certificates(alloc, files, report)?;
    Ok(retimed && same && certified)
}
