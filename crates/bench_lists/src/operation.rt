//! The operations that are timed.

ghost use Rattle.std.specs.Prelude.{◌≤◌, ◌*◌};

/// An operation on a list.
#[derive(Clone, Copy)]
pub enum Operation {
    /// None, with one list at hand.
    Nothing,
    /// None, with two lists at hand.
    NothingOfTwo,
    /// A wire.
    Wire,
    /// A load beside the list.
    Load,
    /// Another list of the same size is taken in.
    Absorb,
}

impl Operation {
    /// The operation of this name.
    pub fn named(name: &str) -> Option<Operation> {
        match name {
            "wire" => Some(Operation::Wire),
            "load" => Some(Operation::Load),
            "absorb" => Some(Operation::Absorb),
            _ => None,
        }
    }

    /// None, with as many lists at hand.
    pub fn without(self) -> Operation {
        match self {
            Operation::Nothing | Operation::Wire | Operation::Load => Operation::Nothing,
            Operation::NothingOfTwo | Operation::Absorb => Operation::NothingOfTwo,
        }
    }

    /// How many candidates the other list has.
    pub fn others(self, size: u32) -> u32
        ensures { result ≤ size }
    {
        match self {
            Operation::NothingOfTwo | Operation::Absorb => size,
            Operation::Nothing | Operation::Wire | Operation::Load => 0,
        }
    }
}
