//! The nodes of a net that are those of sinks.

ghost use Rattle.std.specs.Prelude.{◌≡◌, ◌<◌, ◌==◌, ◌&&◌, ◌||◌, ℕ, false, length, slice_index_or, IfOk};
ghost use Rattle.spef_wire.specs.Refusals.{is_sink};
ghost use Rattle.spef_wire.specs.Wires.{AreMarks};

use crate::ends::is_sink;
use spef_net::{ParConn, ParNet};
use std::alloc::Global;
use vg_num::Memory;

/// Marks the node of a connection, where it is a sink.
fn mark(conn: ParConn, marks: &mut [bool])
    requires { conn.node < length marks.old }
    ensures one_each { length marks.new ≡ length marks.old }
    ensures each { (v : ℕ)
        → slice_index_or marks.new v false ≡ (slice_index_or marks.old v false || (is_sink conn && (conn.node == v))) }
{
    if is_sink(&conn) {
        marks[conn.node as usize] = true;
    }
}

/// For each node of a net whether a sink is there; in one walk over the connections. Answers `Memory` where there is no
/// room.
pub fn sink_marks(alloc: Global, net: &ParNet) -> Result<Vec<bool>, Memory>
    ensures { IfOk result (λ marks. AreMarks net.now marks.items) }
{
    let mut marks = vec![in alloc; false; net.nodes.len()]?;
    'connection: for conn in net.conns.as_slice() {
        mark(*conn, &mut marks);
    }
    Ok(marks)
}
