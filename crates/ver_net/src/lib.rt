//! The connections of a module, net by net, and its nets as Verilog text.
#![tactic(auto)]

mod connections;
mod count;
mod dense;
mod laws;
mod pin_ref;
mod place;
mod rows;
mod sparse;
mod text;
mod tied;

pub use connections::{Connections, connect};
pub use laws::{nets_are_read_again, pins_are_linked, pins_rise, tied_nets_are_shared};
pub use pin_ref::PinRef;
pub use text::{net_text, print_net};
