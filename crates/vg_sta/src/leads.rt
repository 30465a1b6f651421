//! Where the sinks lead.

ghost use Rattle.std.specs.Prelude.{◌≡◌, ◌<◌, ◌≤◌, ◌^◌, ◌++◌, length, OnOk};
ghost use Rattle.std.specs.List.{list_any};
ghost use Rattle.std.specs.Str.{bytes_eq};
ghost use Rattle.vg_sta.specs.Steps.{leads_by};

use crate::outputs::Output;
use name_tables::Names;
use sta_graph::Lead;
use vg_num::Memory;

/// More leads than these are not held.
pub(crate) const MOST: usize = 1 << 30;

/// Whether a pin is one of those that an output names as related.
fn is_related(related: &Names, pin: &[u8]) -> bool
    ensures { result ≡ list_any (bytes_eq pin.now) related.now }
{
    related.find(pin).is_some()
}

/// Puts last the leads of a sink, which is a pin of the instance with these outputs.
pub(crate) fn push_leads(
    outputs: &[Output<'_>],
    pin: &[u8],
    sink: u32,
    leads: &mut Vec<Lead>,
) -> Result<(), Memory>
    requires { length leads.old.items ≤ 2 ^ 30 }
    ensures leads { OnOk result (leads.new.items ≡ leads.old.items ++ leads_by outputs.now pin.now sink) }
    ensures few { OnOk result (length leads.new.items ≤ 2 ^ 30) }
{
    'output: for output in outputs {
        if is_related(output.related, pin) {
            if MOST <= leads.len() {
                return Err(Memory);
            }
            leads.push(Lead {
                sink,
                net: output.section,
            })?;
        }
    }
    Ok(())
}
