//! Pins, by their numbers.

/// A pin of a module.
#[derive(Clone, Copy, Debug, PartialEq, Eq, Drop)]
pub struct PinRef {
    /// The number of its instance among those of the module, from 0 on.
    pub instance: u32,
    /// Its own number among the pins of that instance, from 0 on.
    pub pin: u32,
}
