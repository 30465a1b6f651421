//! What a best solution chooses, by the candidate of the root that was chosen.

ghost use Rattle.std.specs.Prelude.{◌≡◌, ◌*◌, length, IfOk};
ghost use Rattle.vg_slack.specs.Roots.{IsRootChoice};
ghost use Rattle.vg_slack.specs.Choices.{AreChoices};
ghost use Rattle.cand_turns.specs.Solved.{CanWiden};

use crate::root::Choice;
use elmore::Problem;
use sol_arena::Arena;
use std::alloc::Global;
use vg_num::{Memory, Row};
use wire_widths::Width;

/// What a best solution of a net of n nodes chooses at 2n sites, and its slack (zs): at each node a repeater, or none,
/// and after them for each wire, by the node at its lower end, the number of its width, or none for the first one.
#[derive(Drop)]
pub struct Choices {
    pub slack: i128,
    pub sites: Row<Option<u32>>,
}

/// What the best solution chooses that the candidates of the root come to, where this one of them was chosen. `None`:
/// no placement is good with any widths.
pub(crate) fn choices_of(
    alloc: Global,
    arena: &Arena,
    p: &Problem,
    widths: &[Width],
    choice: Option<Choice>,
) -> Result<Option<Choices>, Memory>
    requires widths { CanWiden p.now widths.now }
    requires root { IsRootChoice p.now widths.now arena.now choice }
    ensures { IfOk result (AreChoices p.now widths.now) }
{
    let _ = widths;
    let Some(choice) = choice else {
        return Ok(None);
    };
    let slack = choice.slack;
    let placement = arena.places(alloc, choice.sol, 2 * p.tree.nodes.len())?;
    Ok(Some(Choices {
        slack,
        sites: placement.cells,
    }))
}
