//! Boxes in a tree, so that a point is compared with few of them.

ghost use Rattle.std.specs.Prelude.{◌≡◌, ◌<◌, ◌≤◌, ◌∷◌, List, Bool, length, true, IfOk};
ghost use Rattle.std.specs.List.{All, list_any};
ghost use Rattle.vg_cons.specs.BoxTrees.{Covers, IsSide, IsTree, IsTreeOf, boxes_in};
ghost use Rattle.vg_cons.specs.Rows.{holds};
ghost use Rattle.vg_cons.specs.Statements.{Box as Corners};

use crate::boxes::{Corners, hold, holds};
use std::alloc::Global;
use vg_num::Memory;

/// The most boxes of a leaf.
const LEAF: usize = 16;

/// Boxes that are halved again and again, by each of the coordinates of their corners in turn, and for each part that
/// is halved a box around it.
///
/// J. L. Bentley, "Multidimensional binary search trees used for associative searching", Communications of the ACM 18,
/// 1975.
#[derive(Drop)]
pub(crate) enum BoxTree {
    /// A few boxes.
    Leaf(Vec<Corners>),
    /// The halves of some boxes, and a box around all of them.
    Halves {
        around: Corners,
        one: Box<BoxTree>,
        other: Box<BoxTree>,
    },
}

/// A coordinate of a box by which boxes are halved.
#[derive(Clone, Copy, Drop)]
enum Side {
    Left,
    Bottom,
    Right,
    Top,
}

impl Side {
    /// The side by which the halves are halved.
    fn next(self) -> Side {
        match self {
            Side::Left => Side::Bottom,
            Side::Bottom => Side::Right,
            Side::Right => Side::Top,
            Side::Top => Side::Left,
        }
    }

    /// Where this side of a box lies.
    fn of(self, corners: Corners) -> i128
        ensures { IsSide self corners result }
    {
        let ((x1, y1), (x2, y2)) = corners;
        match self {
            Side::Left => x1.min(x2),
            Side::Bottom => y1.min(y2),
            Side::Right => x1.max(x2),
            Side::Top => y1.max(y2),
        }
    }
}

/// The smallest box around two boxes.
fn around(one: Corners, other: Corners) -> Corners
    ensures one { Covers result one }
    ensures other { Covers result other }
{
    (
        (
            Side::Left.of(one).min(Side::Left.of(other)),
            Side::Bottom.of(one).min(Side::Bottom.of(other)),
        ),
        (
            Side::Right.of(one).max(Side::Right.of(other)),
            Side::Top.of(one).max(Side::Top.of(other)),
        ),
    )
}

/// The smallest box around a box and some more.
fn around_all(first: Corners, boxes: &[Corners]) -> Corners
    ensures first { Covers result first }
    ensures all { All (Covers result) boxes.now }
{
    let mut all = first;
    'corners: for corners in boxes {
        all = around(all, *corners);
    }
    all
}

impl BoxTree {
    /// The tree of some boxes, which are halved by this side first. It puts the boxes into another order. Answers
    /// `Memory` where there is no room.
    fn by(alloc: Global, boxes: &mut [Corners], side: Side) -> Result<BoxTree, Memory>
        ensures tree { IfOk result IsTree }
        ensures same { (test : Corners → Bool)
            → IfOk result (λ tree. list_any test (boxes_in tree) ≡ list_any test boxes.old) }
    {
        if boxes.len() <= LEAF {
            return Ok(BoxTree::Leaf(Vec::from_slice(alloc, boxes)?));
        }
        boxes.sort_unstable_by_key(|corners| side.of(*corners));
        let around = around_all(boxes[0], boxes);
        let (one, other) = boxes.split_at_mut(boxes.len() / 2);
        let one = BoxTree::by(alloc, one, side.next())?;
        let other = BoxTree::by(alloc, other, side.next())?;
        Ok(BoxTree::Halves {
            around,
            one: Box::new(alloc, one)?,
            other: Box::new(alloc, other)?,
        })
    }

    /// The tree of some boxes. It puts them into another order. Answers `Memory` where there is no room.
    pub(crate) fn of(alloc: Global, boxes: &mut [Corners]) -> Result<BoxTree, Memory>
        ensures { IfOk result (IsTreeOf boxes.old) }
    {
        let tree = BoxTree::by(alloc, boxes, Side::Left)?;
        Ok(tree)
    }

    /// Whether a box has the point inside or on its border.
    pub(crate) fn hold(&self, point: (i128, i128)) -> bool
        requires tree { IsTree self.now }
        ensures { result ≡ list_any (holds point) (boxes_in self.now) }
    {
        match self {
            BoxTree::Leaf(boxes) => hold(boxes, point),
            BoxTree::Halves { around, one, other } => {
                holds(*around, point) && (one.hold(point) || other.hold(point))
            }
        }
    }
}
