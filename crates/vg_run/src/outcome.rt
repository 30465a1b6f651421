//! How a request ends.

ghost use Rattle.std.specs.Prelude.{◌≡◌};
ghost use Rattle.vg_run.specs.Outcomes.{status_of};

use crate::inputs::Flaw;
use vg_answer::{AnswerKind, Input, Output};
use vg_scan::Name;

/// How a request ended.
#[derive(Drop)]
pub enum Outcome {
    /// An answer was printed.
    Printed(AnswerKind),
    /// An input has a flaw; those before it have none.
    Flawed(Input, Flaw),
    /// A name of the design begins with the prefix.
    Taken(Name),
    /// Writing this file failed; those before it were written.
    Unwritten(Output),
    /// Writing standard output failed.
    WriteFault,
    /// Out of memory.
    Memory,
}

impl Outcome {
    /// The status of the program.
    pub fn status(&self) -> u8
        ensures { result ≡ status_of self.now }
    {
        match self {
            Outcome::Printed(kind) => kind.status(),
            Outcome::Flawed(_, Flaw::TooLong | Flaw::Faulty(_)) => 4,
            Outcome::Taken(_) => 4,
            Outcome::Flawed(_, Flaw::Failed) => 5,
            Outcome::Unwritten(_) | Outcome::WriteFault => 6,
            Outcome::Memory => 7,
        }
    }
}
