//! The text of a changed netlist denotes the changed netlist: its instances, what it declares, and, by the names of
//! nets, what its pins are linked to.
//!
//! Theory alone: `ver_patch` has the code.
#![tactic(auto)]

mod instance_laws;
mod laws;
mod link_laws;

pub use instance_laws::{instances_differ, instances_stay};
pub use laws::{
    links_are_named, names_determine_nets, names_determine_pins, netlists_are_renewed,
    nets_are_alike, nets_may_be_written, pins_are_renewed,
};
pub use link_laws::{declarations_stay, links_stay};
