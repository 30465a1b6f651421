//! The lines of the frontier of a design.

ghost use Rattle.std.specs.Prelude.{◌≡◌, ◌++◌, map, zip, OnOk};
ghost use Rattle.std.specs.List.{All, flat_map};
ghost use Rattle.mode_total.specs.Lines.{point_line, total_line};
ghost use Rattle.mode_total.specs.Picked.{choice_in, picks_in};
ghost use Rattle.mode_total.specs.Steps.{ArePicksFor, IsPickFor, kept_choice, kept_report, kept_total};

use crate::nets::Net;
use crate::picks::picked;
use itoa::Buffer;
use vg_design::Design;
use vg_front::Point;
use vg_num::{Memory, print_signed};
use vg_report::{push, report_pick};
use vg_total::TotalPoint;

/// Appends `total points P`.
fn print_count(count: usize, to: &mut Vec<u8>) -> Result<(), Memory>
    ensures { OnOk result (to.new.items ≡ to.old.items ++ total_line count) }
{
    push(b"total points ", to)?;
    print_signed(count as i128, to)?;
    push(b"\n", to)?;
    Ok(())
}

/// Appends `point K S`, with K in thousandths and S in zeptoseconds.
fn print_point(point: &TotalPoint, to: &mut Vec<u8>) -> Result<(), Memory>
    ensures { OnOk result (to.new.items ≡ to.old.items ++ point_line point.now.cost point.now.slack) }
{
    let mut buffer = Buffer::new();
    push(b"point ", to)?;
    push(buffer.format(point.cost).as_bytes(), to)?;
    push(b" ", to)?;
    print_signed(point.slack, to)?;
    push(b"\n", to)?;
    Ok(())
}

/// Appends what is picked of the frontier of a net.
fn print_pick(design: &Design, net: &Net, point: &Point, to: &mut Vec<u8>) -> Result<(), Memory>
    requires { IsPickFor design.now (net.now, point.now) }
    ensures { OnOk result (to.new.items ≡ to.old.items ++ kept_report design.now (net.now, point.now)) }
{
    report_pick(
        design.net_name(net.place),
        design.repeaters(),
        &net.names,
        point,
        to,
    )
}

/// Appends what is picked of the frontiers of the nets, one after another.
fn print_picks(
    design: &Design,
    nets: &[Net],
    fronts: &[Vec<Point>],
    picks: &[u32],
    to: &mut Vec<u8>,
) -> Result<(), Memory>
    requires { ArePicksFor design.now nets.now fronts.now picks.now }
    ensures { OnOk result (to.new.items
        ≡ to.old.items ++ flat_map (kept_report design.now) (zip nets.now (picks_in fronts.now picks.now))) }
{
    'net: for at in 0..nets.len() {
        print_pick(design, &nets[at], picked(fronts, picks, at), to)?;
    }
    Ok(())
}

/// Appends a point, and what is picked of each net.
fn print_choice(
    design: &Design,
    nets: &[Net],
    fronts: &[Vec<Point>],
    point: &TotalPoint,
    to: &mut Vec<u8>,
) -> Result<(), Memory>
    requires { ArePicksFor design.now nets.now fronts.now point.now.picks.items }
    ensures { OnOk result (to.new.items
        ≡ to.old.items ++ kept_choice design.now nets.now (choice_in fronts.now point.now)) }
{
    print_point(point, to)?;
    print_picks(design, nets, fronts, &point.picks, to)?;
    Ok(())
}

/// Appends points, one after another.
fn print_choices(
    design: &Design,
    nets: &[Net],
    fronts: &[Vec<Point>],
    points: &[TotalPoint],
    to: &mut Vec<u8>,
) -> Result<(), Memory>
    requires { All (λ x. ArePicksFor design.now nets.now fronts.now x.picks.items) points.now }
    ensures { OnOk result (to.new.items
        ≡ to.old.items ++ flat_map (kept_choice design.now nets.now) (map (choice_in fronts.now) points.now)) }
{
    'point: for at in 0..points.len() {
        print_choice(design, nets, fronts, &points[at], to)?;
    }
    Ok(())
}

/// Appends how many points there are, and then each; or that there is none.
pub fn print_total(
    design: &Design,
    nets: &[Net],
    fronts: &[Vec<Point>],
    points: &[TotalPoint],
    to: &mut Vec<u8>,
) -> Result<(), Memory>
    requires { All (λ x. ArePicksFor design.now nets.now fronts.now x.picks.items) points.now }
    ensures { OnOk result (to.new.items
        ≡ to.old.items ++ kept_total design.now nets.now (map (choice_in fronts.now) points.now)) }
{
    if points.is_empty() {
        return push(b"total none\n", to);
    }
    print_count(points.len(), to)?;
    print_choices(design, nets, fronts, points, to)?;
    Ok(())
}
