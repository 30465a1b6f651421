//! The cells of a Liberty library of the linear delay model: units, pins, cells, and what is wrong with any of them.
#![tactic(auto)]

mod cell;
mod check;
mod fault;
mod first_places;
mod flaw;
mod function;
mod header;
mod pin;
mod pin_rows;
mod pins;
mod related_pins;
mod units;
mod values;

pub use cell::{CellBody, bodies_of, name_of};
pub use check::check_cells;
pub use fault::{LibFault, LibKind, OUT_OF_MEMORY};
pub use function::reduces_to;
pub use header::read_units;
pub use pin::{PinDir, PinGroup, direction_of};
pub use pin_rows::Pin;
pub use pins::Pins;
pub use related_pins::RelatedPins;
pub use units::{Units, load_power, time_power};
pub use values::{given, says};
