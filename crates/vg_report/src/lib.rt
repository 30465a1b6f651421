//! The lines of reports: what is said of a net, and the faults of files, as text.
#![tactic(auto)]

mod faults;
mod placement;
mod refusal;
mod report;
mod timed;
mod wire;

pub use faults::{cons_fault, lib_fault, print_net_fault, spef_fault, ver_fault, width_fault};
pub use placement::{count_cells, print_cells, report_best, report_front, report_pick};
pub use refusal::print_refusal;
pub use report::{print_node, print_none, print_parts, print_value, push};
pub use timed::report_timed;
pub use wire::report_wire;
