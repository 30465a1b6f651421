//! The directions of ports.

/// The direction of a port.
#[derive(Clone, Copy, Debug, PartialEq, Eq, Drop)]
pub enum PortDir {
    Input,
    Output,
    Inout,
}
