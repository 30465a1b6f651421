//! The report of the slack of a net.

ghost use Rattle.std.specs.Prelude.{◌≡◌, ◌++◌, OnOk, OnErr, length, take};
ghost use Rattle.vg_report.specs.Reports.{slack_line};

use crate::report::{print_node, print_slack};
use std::alloc::Global;
use vg_design::Timed;
use vg_num::Memory;

/// Appends the report of a net's slack. Where there is no room, a part of it may stand there.
fn print_timed(alloc: Global, name: &[u8], timed: &Timed, to: &mut Vec<u8>) -> Result<(), Memory>
    ensures printed { OnOk result (to.new.items ≡ to.old.items ++ slack_line name.now timed.now) }
    ensures begun { OnErr result (take (length to.old.items) to.new.items ≡ to.old.items) }
{
    match &timed.wrong {
        None => print_slack(name, timed.slack, b"right", b"", to)?,
        Some(sink) => {
            let mut node = Vec::new(alloc);
            print_node(sink, &mut node)?;
            print_slack(name, timed.slack, b"wrong ", &node, to)?;
        }
    }
    Ok(())
}

/// Appends the report of a net's slack. Answers `Memory` where there is no room, and then `to` is as before.
pub fn report_timed(
    alloc: Global,
    name: &[u8],
    timed: &Timed,
    to: &mut Vec<u8>,
) -> Result<(), Memory>
    ensures printed { OnOk result (to.new.items ≡ to.old.items ++ slack_line name.now timed.now) }
    ensures unchanged { OnErr result (to.new.items ≡ to.old.items) }
{
    let before = to.len();
    let done = print_timed(alloc, name, timed, to);
    if done.is_err() {
        to.truncate(before);
    }
    done
}
