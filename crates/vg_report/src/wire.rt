//! The report of the wire delays of a net.

ghost use Rattle.std.specs.Prelude.{◌≡◌, ◌<◌, ◌^◌, ◌++◌, OnOk, IfOk};
ghost use Rattle.std.specs.List.{flat_map};
ghost use Rattle.vg_report.specs.Reports.{sink_line, wire_report};

use crate::report::{print_sink, print_total};
use spef_wire::{SinkDelays, WireNet};
use std::alloc::Global;
use vg_num::Memory;

/// Appends a line for each sink.
fn print_sinks(sinks: &SinkDelays, to: &mut Vec<u8>) -> Result<(), Memory>
    ensures { OnOk result (to.new.items ≡ to.old.items ++ flat_map sink_line sinks.now) }
{
    'sink: for at in 0..sinks.len() {
        print_sink(sinks.owner(at), sinks.leaf(at), sinks.delay(at), to)?;
    }
    Ok(())
}

/// The report of a net: its total capacitance (aF), and the wire delay (zs) of each sink.
pub fn report_wire(alloc: Global, name: &[u8], wire: &WireNet) -> Result<Vec<u8>, Memory>
    requires { wire.now.total < 2 ^ 127 }
    ensures { IfOk result (λ text. text.items ≡ wire_report name.now wire.now) }
{
    let mut text = Vec::new(alloc);
    print_total(name, wire.total as i128, &mut text)?;
    print_sinks(&wire.sinks, &mut text)?;
    Ok(text)
}
