//! The nodes of a net, numbered, with what is noted of each, and the texts that name them.
#![tactic(auto)]

mod members;
mod node;
mod node_reader;
mod node_rows;
mod node_table;
mod nodes;
mod notes;
mod ordered_nodes;

pub use members::is_inner;
pub use node::{Node, Spelled, read_node};
pub use node_reader::NodeReader;
pub use node_table::NodeTable;
pub use nodes::Nodes;
pub use notes::Notes;
