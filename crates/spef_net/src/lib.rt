//! One section of a SPEF file (IEEE Std 1481): the connections, nodes, capacitors and resistors of a net.
#![tactic(auto)]

mod builder;
mod conn_line;
mod connections;
mod coordinates;
mod fault;
mod finish;
mod laws;
mod line;
mod net;
mod part;
mod read;
mod section;
mod take;
mod value;

pub use coordinates::position;
pub use fault::{NetFault, NetKind};
pub use laws::{one_net, other_nets_count_not};
pub use net::{ConnKind, Direction, ParConn, ParNet};
pub use section::read_net;
pub use spef_nodes::Nodes;
