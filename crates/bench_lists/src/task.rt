//! The tasks that are timed.

ghost use Rattle.std.specs.Prelude.{◌≤◌, ◌*◌};

use crate::operation::Operation;

/// How many repeaters are added.
#[derive(Clone, Copy)]
pub enum Count {
    Two,
    Sixteen,
    All,
}

/// What is timed.
#[derive(Clone, Copy)]
pub enum Task {
    /// Lists are made, changed by an operation, and given up.
    Change(Operation),
    /// Two branches are made, and end.
    Branches,
    /// Two branches are made and merged, and what they make together ends.
    Merge,
    /// A list without cells is made, and ends.
    Plain,
    /// A list without cells is made, and what so many repeaters make of it; both end.
    Cells(Count),
}

impl Task {
    /// The task of this name.
    pub fn named(name: &str) -> Option<Task> {
        match name {
            "merge" => Some(Task::Merge),
            "cells2" => Some(Task::Cells(Count::Two)),
            "cells16" => Some(Task::Cells(Count::Sixteen)),
            "cells256" => Some(Task::Cells(Count::All)),
            _ => Some(Task::Change(Operation::named(name)?)),
        }
    }

    /// The same lists, without the work on them.
    pub fn without(self) -> Task {
        match self {
            Task::Change(operation) => Task::Change(operation.without()),
            Task::Branches | Task::Merge => Task::Branches,
            Task::Plain | Task::Cells(_) => Task::Plain,
        }
    }

    /// How many candidates the lists of a turn have together, where a list has so many.
    pub fn candidates(self, size: u32) -> u64
        ensures { result ≤ 2 * size }
    {
        let others = match self {
            Task::Change(operation) => operation.others(size),
            Task::Branches | Task::Merge => size,
            Task::Plain | Task::Cells(_) => 0,
        };
        u64::from(size) + u64::from(others)
    }

    /// How many repeaters it adds.
    pub fn reps(self) -> u32
        ensures { result ≤ 256 }
    {
        match self {
            Task::Cells(Count::Two) => 2,
            Task::Cells(Count::Sixteen) => 16,
            Task::Cells(Count::All) => 256,
            Task::Change(_) | Task::Branches | Task::Merge | Task::Plain => 0,
        }
    }
}
