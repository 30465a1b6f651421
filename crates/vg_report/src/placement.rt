//! Placements of repeaters on a net, and their reports.

ghost use Rattle.std.specs.Prelude.{◌≡◌, ◌++◌, length, take, OnOk, OnErr};
ghost use Rattle.std.specs.List.{All, flat_map};
ghost use Rattle.elmore.specs.Placed.{IsPlacementOf};
ghost use Rattle.elmore.specs.Placements.{IsPlacement};
ghost use Rattle.vg_design.specs.Parts.{cells_of};
ghost use Rattle.vg_report.specs.Reports.{best_report, cell_count, cell_lines, front_report, pick_report, point_report};

use crate::report::{print_at, print_best, print_count, print_pick, print_point};
use elmore::{Placement, cost};
use lib_linear::Repeater;
use vg_design::{NetProblem, TreeNames};
use vg_front::Point;
use vg_num::Memory;
use vg_slack::Best;

/// How many nodes have a cell.
pub fn count_cells(placement: &Placement) -> usize
    ensures { result ≡ cell_count placement.now.cells }
{
    placement
        .cells
        .as_slice()
        .iter()
        .filter(|cell| cell.is_some())
        .count()
}

/// Appends a line for each node that has a cell, in tree order. Where there is no room, a part of them may stand there.
pub fn print_cells(
    repeaters: &[Repeater],
    names: &TreeNames,
    placement: &Placement,
    to: &mut Vec<u8>,
) -> Result<(), Memory>
    requires { IsPlacementOf (length names.now) (length repeaters.now) placement.now.cells }
    ensures printed { OnOk result (to.new.items
        ≡ to.old.items ++ cell_lines (cells_of repeaters.now) names.now placement.now.cells) }
    ensures begun { OnErr result (take (length to.old.items) to.new.items ≡ to.old.items) }
{
    let cells = placement.cells.as_slice();
    'node: for at in 0..cells.len() {
        if let Some(b) = cells[at] {
            let cell = repeaters[b as usize].cell.as_bytes();
            print_at(names.owner(at), names.leaf(at), cell, to)?;
        }
    }
    Ok(())
}

/// Appends the report of a placement of repeaters on a net. Where there is no room, a part of it may stand there.
fn print_placed(
    name: &[u8],
    repeaters: &[Repeater],
    net: &NetProblem,
    best: &Best,
    to: &mut Vec<u8>,
) -> Result<(), Memory>
    requires placement { IsPlacement net.now.problem best.now.placement.cells }
    requires named { IsPlacementOf (length net.now.names) (length repeaters.now) best.now.placement.cells }
    ensures printed { OnOk result (to.new.items
        ≡ to.old.items ++ best_report name.now (cells_of repeaters.now) net.now best.now) }
    ensures begun { OnErr result (take (length to.old.items) to.new.items ≡ to.old.items) }
{
    let cost = cost(&net.problem, &best.placement);
    let count = count_cells(&best.placement);
    print_best(name, best.slack, cost, count, to)?;
    print_cells(repeaters, &net.names, &best.placement, to)?;
    Ok(())
}

/// Appends the report of a placement of repeaters on a net. Answers `Memory` where there is no room, and then `to` is
/// as before.
pub fn report_best(
    name: &[u8],
    repeaters: &[Repeater],
    net: &NetProblem,
    best: &Best,
    to: &mut Vec<u8>,
) -> Result<(), Memory>
    requires placement { IsPlacement net.now.problem best.now.placement.cells }
    requires named { IsPlacementOf (length net.now.names) (length repeaters.now) best.now.placement.cells }
    ensures printed { OnOk result (to.new.items
        ≡ to.old.items ++ best_report name.now (cells_of repeaters.now) net.now best.now) }
    ensures unchanged { OnErr result (to.new.items ≡ to.old.items) }
{
    let before = to.len();
    let done = print_placed(name, repeaters, net, best, to);
    if done.is_err() {
        to.truncate(before);
    }
    done
}

/// Appends the report of a point of a frontier.
fn report_point(
    repeaters: &[Repeater],
    names: &TreeNames,
    point: &Point,
    to: &mut Vec<u8>,
) -> Result<(), Memory>
    requires { IsPlacementOf (length names.now) (length repeaters.now) point.now.placement.cells }
    ensures printed { OnOk result (to.new.items
        ≡ to.old.items ++ point_report (cells_of repeaters.now) names.now point.now) }
    ensures begun { OnErr result (take (length to.old.items) to.new.items ≡ to.old.items) }
{
    let count = count_cells(&point.placement);
    print_point(point.cost, point.slack, count, to)?;
    print_cells(repeaters, names, &point.placement, to)?;
    Ok(())
}

/// Appends those of some points, one after another.
fn print_points(
    repeaters: &[Repeater],
    names: &TreeNames,
    points: &[Point],
    to: &mut Vec<u8>,
) -> Result<(), Memory>
    requires { All (λ point. IsPlacementOf (length names.now) (length repeaters.now) point.placement.cells) points.now }
    ensures printed { OnOk result (to.new.items
        ≡ to.old.items ++ flat_map (point_report (cells_of repeaters.now) names.now) points.now) }
    ensures begun { OnErr result (take (length to.old.items) to.new.items ≡ to.old.items) }
{
    'point: for at in 0..points.len() {
        report_point(repeaters, names, &points[at], to)?;
    }
    Ok(())
}

/// Appends the report of a frontier of a net. Where there is no room, a part of it may stand there.
fn print_front(
    name: &[u8],
    repeaters: &[Repeater],
    net: &NetProblem,
    points: &[Point],
    to: &mut Vec<u8>,
) -> Result<(), Memory>
    requires { All
        (λ point. IsPlacementOf (length net.now.names) (length repeaters.now) point.placement.cells) points.now }
    ensures printed { OnOk result (to.new.items
        ≡ to.old.items ++ front_report name.now (cells_of repeaters.now) net.now points.now) }
    ensures begun { OnErr result (take (length to.old.items) to.new.items ≡ to.old.items) }
{
    print_count(name, points.len(), to)?;
    print_points(repeaters, &net.names, points, to)?;
    Ok(())
}

/// Appends the report of a frontier of a net. Answers `Memory` where there is no room, and then `to` is as before.
pub fn report_front(
    name: &[u8],
    repeaters: &[Repeater],
    net: &NetProblem,
    points: &[Point],
    to: &mut Vec<u8>,
) -> Result<(), Memory>
    requires { All
        (λ point. IsPlacementOf (length net.now.names) (length repeaters.now) point.placement.cells) points.now }
    ensures printed { OnOk result (to.new.items
        ≡ to.old.items ++ front_report name.now (cells_of repeaters.now) net.now points.now) }
    ensures unchanged { OnErr result (to.new.items ≡ to.old.items) }
{
    let before = to.len();
    let done = print_front(name, repeaters, net, points, to);
    if done.is_err() {
        to.truncate(before);
    }
    done
}

/// Appends the report of a point that is picked of the frontier of a net. Where there is no room, a part of it may stand
/// there.
fn print_picked(
    name: &[u8],
    repeaters: &[Repeater],
    names: &TreeNames,
    point: &Point,
    to: &mut Vec<u8>,
) -> Result<(), Memory>
    requires { IsPlacementOf (length names.now) (length repeaters.now) point.now.placement.cells }
    ensures printed { OnOk result (to.new.items
        ≡ to.old.items ++ pick_report name.now (cells_of repeaters.now) names.now point.now) }
    ensures begun { OnErr result (take (length to.old.items) to.new.items ≡ to.old.items) }
{
    let count = count_cells(&point.placement);
    print_pick(name, point.cost, point.slack, count, to)?;
    print_cells(repeaters, names, &point.placement, to)?;
    Ok(())
}

/// Appends the report of a point that is picked of the frontier of a net. Answers `Memory` where there is no room, and
/// then `to` is as before.
pub fn report_pick(
    name: &[u8],
    repeaters: &[Repeater],
    names: &TreeNames,
    point: &Point,
    to: &mut Vec<u8>,
) -> Result<(), Memory>
    requires { IsPlacementOf (length names.now) (length repeaters.now) point.now.placement.cells }
    ensures printed { OnOk result (to.new.items
        ≡ to.old.items ++ pick_report name.now (cells_of repeaters.now) names.now point.now) }
    ensures unchanged { OnErr result (to.new.items ≡ to.old.items) }
{
    let before = to.len();
    let done = print_picked(name, repeaters, names, point, to);
    if done.is_err() {
        to.truncate(before);
    }
    done
}
