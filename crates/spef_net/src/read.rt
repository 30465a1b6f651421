//! The lines of a section in order.

ghost use Rattle.std.specs.Prelude.{◌≡◌, ◌^◌, ◌≤◌, length, OnOk, IfOk, IfErr};
ghost use Rattle.spef_nodes.specs.Members.{distinct};
ghost use Rattle.spef_net.specs.Statements.{statement_of};
ghost use Rattle.spef_net.specs.Rows.{connected_of};
ghost use Rattle.spef_net.specs.Faults.{FailsFirst, IsFaultless};
ghost use Rattle.spef_net.specs.Connections.{statement_about};
ghost use Rattle.spef_net.specs.Builders.{FollowsFrom, HasTaken, IsSameSource};

use crate::builder::NetBuilder;
use crate::fault::{NetFault, NetKind};
use crate::line::head_of;
use crate::part::Part;
use crate::take::take_in;
use spef_nodes::NodeReader;
use std::alloc::Global;
use vg_scan::{Words, next_line, text_at};

/// Takes a line, and says which part is open after it.
fn take_line<'a>(builder: &mut NetBuilder<'a>, part: Part, line: &'a [u8]) -> Result<Part, NetKind>
    ensures taken { FollowsFrom builder.old part result (statement_of builder.old.file part line.now) builder.new }
    ensures source { OnOk result (IsSameSource builder.old builder.new) }
{
    let mut words = Words::new(line);
    let Some(first) = words.next() else {
        return Ok(part);
    };
    match head_of(first, &words) {
        Some(opened) => {
            builder.open(opened);
            Ok(opened)
        }
        None => match take_in(builder, part, line, first, words) {
            Err(kind) => Err(kind),
            Ok(()) => Ok(part),
        },
    }
}

/// The net that a section's lines denote, from the nodes of its connections; or the first fault.
pub(crate) fn read_lines<'a>(
    alloc: Global,
    nodes: NodeReader<'a>,
    bytes: &'a [u8],
    first: usize,
) -> Result<NetBuilder<'a>, NetFault>
    requires length { length bytes.now ≤ 2 ^ 28 }
    requires first { first ≤ 2 ^ 62 }
    requires nodes { nodes.nodes ≡ distinct (connected_of (statement_about nodes bytes.now)) }
    ensures faultless { IfOk result (λ _. IsFaultless nodes.entry.net (statement_about nodes.entry bytes.now)) }
    ensures builder { IfOk result (HasTaken nodes.entry bytes.now) }
    ensures fault { IfErr result (FailsFirst nodes.entry.net (statement_about nodes.entry bytes.now) first) }
{
    let Ok(mut builder) = NetBuilder::new(alloc, nodes, bytes.len() / 32) else {
        return Err(NetFault {
            kind: NetKind::Memory,
            line: first,
        });
    };
    let mut part = Part::Nowhere;
    let mut count = 0usize;
    let mut at = 0usize;
    'line: while let Some((line, next)) = next_line(bytes, at) {
        let text = text_at(bytes, line);
        match take_line(&mut builder, part, text) {
            Err(kind) => {
                return Err(NetFault {
                    kind,
                    line: first + count,
                });
            }
            Ok(opened) => {
                part = opened;
            }
        }
        count += 1;
        at = next;
    }
    Ok(builder)
}
