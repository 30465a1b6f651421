//! The report of a placement whose wires have widths.

ghost use Rattle.std.specs.Prelude.{◌≡◌, ◌++◌, ◌≤◌, OnOk, codes, decimal, length};
ghost use Rattle.elmore.specs.Placed.{IsPlacementOf};
ghost use Rattle.elmore.specs.Placements.{IsPlacement};
ghost use Rattle.vg_design.specs.Parts.{cells_of};
ghost use Rattle.mode_width.specs.Lines.{wide_count, wide_line, width_line, width_lines, width_report};

use elmore::cost;
use lib_linear::Repeater;
use vg_design::{NetProblem, TreeNames};
use vg_num::{Memory, print_signed};
use vg_report::{count_cells, print_cells, print_parts, print_value, push};
use vg_width::WideBest;

/// How many wires have another width than the first.
fn count_wide(chosen: &[u8]) -> usize
    ensures { result ≡ wide_count chosen.now }
{
    chosen.iter().filter(|row| **row != 0).count()
}

/// Appends ` cost K cells M wide W` and the line's end, with K in thousandths.
fn print_counts(cost: u64, count: usize, wide: usize, to: &mut Vec<u8>) -> Result<(), Memory>
    ensures { OnOk result (to.new.items ≡ to.old.items
        ++ (codes " cost " ++ (decimal cost
        ++ (codes " cells " ++ (decimal count
        ++ (codes " wide " ++ (decimal wide ++ codes "\n"))))))) }
{
    push(b" cost ", to)?;
    print_signed(i128::from(cost), to)?;
    push(b" cells ", to)?;
    print_signed(count as i128, to)?;
    push(b" wide ", to)?;
    print_signed(wide as i128, to)?;
    push(b"\n", to)?;
    Ok(())
}

/// Appends `net NAME slack S cost K cells M wide W`, with S in zeptoseconds and K in thousandths.
fn print_head(
    name: &[u8],
    slack: i128,
    cost: u64,
    count: usize,
    wide: usize,
    to: &mut Vec<u8>,
) -> Result<(), Memory>
    ensures { OnOk result (to.new.items ≡ to.old.items ++ wide_line name.now slack cost count wide) }
{
    print_value(name, slack, to)?;
    print_counts(cost, count, wide, to)?;
    Ok(())
}

/// Appends `width NODE I`, with the owner and the leaf of the node.
fn print_width(owner: &[u8], leaf: &[u8], row: u8, to: &mut Vec<u8>) -> Result<(), Memory>
    ensures { OnOk result (to.new.items
        ≡ to.old.items ++ width_line (record { owner = owner.now; leaf = leaf.now }) row) }
{
    push(b"width ", to)?;
    print_parts(owner, leaf, to)?;
    push(b" ", to)?;
    print_signed(i128::from(row), to)?;
    push(b"\n", to)?;
    Ok(())
}

/// Appends a line for each wire that has another width than the first, in tree order.
fn print_widths(names: &TreeNames, chosen: &[u8], to: &mut Vec<u8>) -> Result<(), Memory>
    requires { length chosen.now ≤ length names.now }
    ensures { OnOk result (to.new.items ≡ to.old.items ++ width_lines names.now chosen.now) }
{
    'wire: for at in 0..chosen.len() {
        let row = chosen[at];
        if row != 0 {
            print_width(names.owner(at), names.leaf(at), row, to)?;
        }
    }
    Ok(())
}

/// Appends the report of a placement of repeaters on a net whose wires have widths. Where there is no room, a part of
/// it may stand there.
pub fn print_wide(
    name: &[u8],
    repeaters: &[Repeater],
    net: &NetProblem,
    best: &WideBest,
    to: &mut Vec<u8>,
) -> Result<(), Memory>
    requires placement { IsPlacement net.now.problem best.now.placement.cells }
    requires named { IsPlacementOf (length net.now.names) (length repeaters.now) best.now.placement.cells }
    requires chosen { length best.now.chosen ≤ length net.now.names }
    ensures { OnOk result (to.new.items
        ≡ to.old.items ++ width_report name.now (cells_of repeaters.now) net.now best.now) }
{
    let chosen = best.chosen.as_slice();
    let cost = cost(&net.problem, &best.placement);
    let count = count_cells(&best.placement);
    print_head(name, best.slack, cost, count, count_wide(chosen), to)?;
    print_cells(repeaters, &net.names, &best.placement, to)?;
    print_widths(&net.names, chosen, to)?;
    Ok(())
}
