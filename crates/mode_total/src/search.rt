//! The frontier of all accepted nets of a design.

ghost use Rattle.std.specs.Prelude.{◌≡◌, List, map, IfOk};
ghost use Rattle.std.specs.List.{All};
ghost use Rattle.mode_total.specs.Choices.{Accepted, AreChoices};
ghost use Rattle.mode_total.specs.Picked.{AreFrontsFor, AreInside, choice_in};
ghost use Rattle.mode_total.specs.Steps.{AreShort, IsFoundFor, kind_found};

use crate::nets::{Net, Weighed, weigh_all};
use crate::print::print_total;
use sol_arena::Arena;
use std::alloc::Global;
use vg_answer::AnswerKind;
use vg_design::Design;
use vg_front::Point;
use vg_num::Memory;
use vg_total::{TotalPoint, total};

/// The frontier of all accepted nets, and what is said of all nets.
#[derive(Drop)]
pub struct Found {
    pub kind: AnswerKind,
    /// The lines of all nets, and of all points.
    pub text: Vec<u8>,
    /// The nets that are accepted.
    pub nets: Vec<Net>,
    /// For each of them its frontier.
    pub fronts: Vec<Vec<Point>>,
    /// The points of the frontier of all of them.
    pub points: Vec<TotalPoint>,
}

/// The frontier of all nets within a cap of the cost (thousandths), if there is one. It has no point where there is no
/// net.
fn points_of(
    alloc: Global,
    fronts: &[Vec<Point>],
    cap: Option<u64>,
) -> Result<Vec<TotalPoint>, Memory>
    requires fronts { (nets : List Accepted) × AreFrontsFor cap nets fronts.now }
    requires short { AreShort fronts.now }
    ensures choices { (nets : List Accepted) → AreFrontsFor cap nets fronts.now
        → IfOk result (λ points. AreChoices nets cap (map (choice_in fronts.now) points.items)) }
    ensures inside { IfOk result (λ points. All (λ x. AreInside fronts.now x.picks.items) points.items) }
{
    if fronts.is_empty() {
        return Ok(Vec::new(alloc));
    }
    total(alloc, fronts, cap)
}

/// A report, or that there is no point.
fn kind_of(points: &[TotalPoint]) -> AnswerKind
    ensures { result ≡ kind_found points.now }
{
    if points.is_empty() {
        AnswerKind::NoneGood
    } else {
        AnswerKind::Report
    }
}

/// The frontier of a design within a cap of the cost (thousandths), if there is one. Answers `Memory` where there is no
/// room.
pub fn search(alloc: Global, design: &Design, cap: Option<u64>) -> Result<Found, Memory>
    ensures { IfOk result (IsFoundFor design.now cap) }
{
    let mut arena = Arena::new(alloc);
    let Weighed {
        kind,
        mut text,
        nets,
        fronts,
    } = weigh_all(alloc, &mut arena, design, cap)?;
    let points = points_of(alloc, &fronts, cap)?;
    print_total(design, &nets, &fronts, &points, &mut text)?;
    Ok(Found {
        kind: kind_of(&points).worse(kind),
        text,
        nets,
        fronts,
        points,
    })
}
