//! Boxes, and whether a point is in one.

ghost use Rattle.std.specs.Prelude.{◌≡◌, List, [], ◌∷◌, ◌++◌, OnErr, OnOk};
ghost use Rattle.std.specs.List.{list_any};
ghost use Rattle.vg_cons.specs.Rows.{is_between, holds};
ghost use Rattle.vg_cons.specs.Statements.{Box as Corners};

use crate::box_tree::BoxTree;
use std::alloc::Global;
use std::marker::Model;
use vg_num::Memory;

/// A point by its x and y, in thousandths.
pub(crate) type Point = (i128, i128);

/// Two corners of a box that lie across from each other.
pub(crate) type Corners = (Point, Point);

/// From how many boxes on a tree finds a point faster than a walk over all.
const MANY: usize = 17;

/// Some boxes, in the order in which they came.
#[derive(Drop)]
pub(crate) struct Boxes {
    alloc: Global,
    corners: Vec<Corners>,
    /// The same boxes as a tree, once they are arranged.
    tree: Option<BoxTree>,
}

impl Model for Boxes {
    ghost use Rattle.std.specs.Prelude.{IfSome, List};
    ghost use Rattle.vg_cons.specs.BoxTrees.{IsTreeOf};
    ghost use Rattle.vg_cons.specs.Statements.{Box as Corners};

    ghost Value = { List Corners };

    ghost view = { λ boxes. boxes.corners.items };

    ghost invariant = { λ boxes. IfSome boxes.tree (IsTreeOf boxes.corners.items) };
}

impl Boxes {
    pub fn new(alloc: Global) -> Boxes
        ensures { result ≡ [] }
    {
        Boxes {
            alloc,
            corners: Vec::new(alloc),
            tree: None,
        }
    }

    /// Puts a box last. Answers `Memory` where there is no room; nothing changes then.
    pub fn add(&mut self, corners: Corners) -> Result<(), Memory>
        ensures last { OnOk result (self.new ≡ self.old ++ corners ∷ []) }
        ensures unchanged { OnErr result (self.new ≡ self.old) }
    {
        self.tree = None;
        self.corners.push(corners)?;
        Ok(())
    }

    /// Arranges the boxes, where there are many, so that a look-up compares a point with few of them. Answers `Memory`
    /// where there is no room. The boxes stay as they are.
    pub fn arrange(&mut self) -> Result<(), Memory>
        ensures { self.new ≡ self.old }
    {
        if self.corners.len() < MANY {
            return Ok(());
        }
        let mut boxes = Vec::from_slice(self.alloc, &self.corners)?;
        self.tree = Some(BoxTree::of(self.alloc, &mut boxes)?);
        Ok(())
    }

    /// Whether a box has the point inside or on its border.
    pub fn hold(&self, point: Point) -> bool
        ensures { result ≡ list_any (holds point) self.now }
    {
        match &self.tree {
            Some(tree) => tree.hold(point),
            None => hold(&self.corners, point),
        }
    }
}

/// Whether one of some boxes has the point inside or on its border.
pub(crate) fn hold(boxes: &[Corners], point: Point) -> bool
    ensures { result ≡ list_any (holds point) boxes.now }
{
    boxes.iter().any(|corners| holds(*corners, point))
}

/// Whether a number is one of two or lies between them.
fn is_between(one: i128, other: i128, number: i128) -> bool
    ensures { result ≡ is_between one other number }
{
    (one <= number && number <= other) || (other <= number && number <= one)
}

/// Whether a point is in a box or on its border.
pub(crate) fn holds(corners: Corners, point: Point) -> bool
    ensures { result ≡ holds point corners }
{
    let ((x1, y1), (x2, y2)) = corners;
    let (x, y) = point;
    is_between(x1, x2, x) && is_between(y1, y2, y)
}
