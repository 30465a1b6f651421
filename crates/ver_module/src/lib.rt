//! What a structural Verilog module is: its nets, its instances, and their connections.
#![tactic(auto)]

mod direction;
mod instances;
mod link;
mod module;
mod name;
mod net;
mod nets;
mod place;
mod range;
mod runs;

pub use direction::PortDir;
pub use instances::{Instance, Instances, Pin};
pub use link::{Link, LinkRef};
pub use module::Module;
pub use name::name_number;
pub use net::{Identifier, Net};
pub use nets::Nets;
pub use range::Range;
pub use runs::Runs;
