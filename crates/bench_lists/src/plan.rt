//! What is to be timed.

ghost use Rattle.std.specs.Prelude.{◌≤◌, ◌^◌, IfSome};

use crate::random::MOST;
use crate::task::Task;

/// What is to be timed: rounds of turns with lists of this size, in slots one beside the other or scattered.
#[derive(Clone, Copy)]
pub struct Plan {
    pub task: Task,
    pub size: u32,
    pub scattered: bool,
    pub rounds: u32,
}

impl Plan {
    /// Reads the words TASK SIZE ORDER ROUNDS.
    pub fn read(words: &[String]) -> Option<Plan>
        ensures { IfSome result (λ plan. plan.size ≤ 10 ^ 6) }
    {
        let [task, size, order, rounds] = words else {
            return None;
        };
        let task = Task::named(task.as_str())?;
        let scattered = match order.as_str() {
            "fresh" => false,
            "scattered" => true,
            _ => return None,
        };
        let size = size.as_str().parse::<u32>().ok()?;
        let rounds = rounds.as_str().parse::<u32>().ok()?;
        if size > MOST {
            return None;
        }
        Some(Plan {
            task,
            size,
            scattered,
            rounds,
        })
    }
}
