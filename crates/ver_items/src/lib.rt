//! The tokens of a structural netlist, cut into items, and what the items list.
#![tactic(auto)]

mod begin;
mod bits;
mod connection;
mod cut;
mod heading;
mod item;
mod items;
mod kept;
mod others;
mod section;
mod stretch;
mod token;

pub use begin::{Begin, begins_declaration};
pub use bits::{Select, select_before};
pub use connection::{connection_of, expression_in, span_of};
pub use cut::Cut;
pub use heading::Heading;
pub use item::{Item, Tokens};
pub use items::{Found, Items};
pub use kept::{ItemsAgain, KeptItems};
pub use others::{after_first, others_in};
pub use section::{Section, Sections};
pub use stretch::Stretch;
pub use token::{bytes_at, is, is_identifier, is_name_in, is_net_name, name_at};
