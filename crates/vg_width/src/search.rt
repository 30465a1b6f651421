//! The best choice of repeaters and of one width for each wire of a net.

ghost use Rattle.std.specs.Prelude.{◌≡◌, ◌*◌, ◌^◌, ◌<◌, Some, length, IfOk};
ghost use Rattle.cand_turns.specs.Solved.{CanWiden};
ghost use Rattle.vg_slack.specs.Choices.{AreChoices, AreBestChoices, choice_at};
ghost use Rattle.vg_width.specs.WideBests.{AreFew, IsWideAnswer};
ghost use Rattle.wire_widths.specs.Fits.{Fits};
ghost use Rattle.wire_widths.specs.WideSolutions.{row_of, rows_by};

use crate::wide::WideBest;
use cand_pool::Steps;
use elmore::{Placement, Problem};
use std::alloc::Global;
use std::marker::Brand;
use std::sync::ledger::{Blank, Ledger};
use vg_num::{Memory, Row};
use vg_slack::{Choices, best_choices};
use wire_widths::{Width, Widths};

/// What a best choice of repeaters and widths is, or none, by a search whose steps are counted in a ledger.
fn counted<L: Ledger>(
    alloc: Global,
    p: &Problem,
    widths: &[Width],
    blank: Blank,
) -> Result<Option<Choices>, Memory>
    requires name { blank.name ≡ L.name }
    requires parts { blank.parts ≡ L.parts }
    requires some { 0 < L.parts }
    requires widths { CanWiden p.now widths.now }
    ensures { IfOk result (AreChoices p.now widths.now) }
{
    let mut steps = Steps::<L>::new(blank);
    let found = best_choices(alloc, p, widths, &mut steps)?;
    Ok(found)
}

/// The width of a wire of which this was chosen.
fn row_of(chosen: Option<u32>) -> u8
    requires { row_of chosen < 2 ^ 8 }
    ensures { result ≡ row_of chosen }
{
    match chosen {
        Some(row) => row as u8,
        None => 0,
    }
}

/// The widths of the wires, by what was chosen at their sites. Answers `Memory` where there is no room.
fn rows_of(alloc: Global, p: &Problem, sites: &[Option<u32>]) -> Result<Vec<u8>, Memory>
    requires each { length sites.now ≡ 2 * length p.now.tree.nodes }
    requires few { AreFew (rows_by p.now (choice_at sites.now)) }
    ensures { IfOk result (λ rows. rows.items ≡ rows_by p.now (choice_at sites.now)) }
{
    let n = p.tree.nodes.len();
    let mut rows = Vec::with_capacity(alloc, n)?;
    'wires: for u in 0..n {
        rows.push(row_of(sites[n + u]))?;
    }
    Ok(rows)
}

/// The placement and the widths that these choices are. Answers `Memory` where there is no room.
fn split(alloc: Global, p: &Problem, widths: &[Width], choices: Choices) -> Result<WideBest, Memory>
    requires widths { CanWiden p.now widths.now }
    requires best { AreBestChoices p.now widths.now choices }
    ensures { IfOk result (λ best. IsWideAnswer p.now widths.now (Some best)) }
{
    let _ = widths;
    let n = p.tree.nodes.len();
    let Choices { slack, sites } = choices;
    let chosen = Row::from_vec(rows_of(alloc, p, sites.as_slice())?);
    let mut cells = sites.into_vec();
    cells.truncate(n);
    let placement = Placement {
        cells: Row::from_vec(cells),
    };
    Ok(WideBest {
        slack,
        placement,
        chosen,
    })
}

/// The best choice of repeaters and of one width for each wire of a net whose loads stay within their limit with all
/// widths (Lillis, Cheng and Lin 1996). `None`: no placement is good with any widths. Answers `Memory` where there is
/// no room.
pub fn wide_best(alloc: Global, p: &Problem, widths: &Widths) -> Result<Option<WideBest>, Memory>
    requires fits { Fits p.now widths.now.rows }
    ensures { IfOk result (IsWideAnswer p.now widths.now.rows) }
{
    let rows = widths.rows.as_slice();
    let Some(choices) = counted::<Brand>(alloc, p, rows, Blank::new(1))? else {
        return Ok(None);
    };
    let best = split(alloc, p, rows, choices)?;
    Ok(Some(best))
}
