//! The stages of a net with cells.

ghost use Rattle.std.specs.Prelude.{◌≡◌, ℕ, ◌+◌, ◌^◌, ◌<◌, ◌∷◌, [], true, List, Option, length, IfOk, OnOk};
ghost use Rattle.elmore.specs.Path.{Falls};
ghost use Rattle.elmore.specs.Stage.{is_head};
ghost use Rattle.elmore.specs.Trees.{parent_of};
ghost use Rattle.cut_laws.specs.CutNets.{forest_of};
ghost use Rattle.cut_laws.specs.Pieces.{Forest};
ghost use Rattle.vg_split.specs.Stages.{heads_to, IsInStage, AreStages, AreStagesTo};

use elmore::Problem;
use std::alloc::Global;
use vg_num::Memory;

/// How many nodes a stage has room for at first. Most stages have no more, and a block of memory for fewer would not be
/// smaller.
const FIRST_ROOM: usize = 6;

/// The stages that cells divide a net into, by their numbers: that of the root is 0, and those of the cells follow, as
/// the cells do in tree order.
#[derive(Drop)]
pub struct Stages {
    /// For each stage its nodes, and those whose cells end it, in tree order. The first is the one where it begins.
    pub nodes: Vec<Vec<u32>>,
    /// For each node the number of the stage that it is in; where it has a cell, of the cell's own.
    pub stage_of: Vec<u32>,
}

/// The parent of a node.
fn parent_of(p: &Problem, node: usize) -> usize
    requires some { 0 < node }
    requires node { node < length p.now.tree.nodes }
    ensures parent { result ≡ parent_of p.now.tree.nodes node }
    ensures less { result < node }
{
    p.tree.nodes.as_slice()[node].parent as usize
}

/// The nodes of a stage that begins at a node, so far.
fn begun(alloc: Global, node: u32) -> Result<Vec<u32>, Memory>
    ensures { IfOk result (λ members. members.items ≡ node ∷ []) }
{
    let mut members = Vec::with_capacity(alloc, FIRST_ROOM)?;
    members.push(node)?;
    Ok(members)
}

impl Stages {
    /// Puts a node into the stage above it.
    fn end(&mut self, p: &Problem, node: usize) -> Result<u32, Memory>
        requires some { 0 < node }
        requires node { node < length p.now.tree.nodes }
        requires stages { (cells : List (Option ℕ)) × AreStagesTo (forest_of p.now cells) node node self.old }
        ensures above { IfOk result (λ above. (cells : List (Option ℕ))
            → AreStagesTo (forest_of p.now cells) node node self.old
            → IsInStage (forest_of p.now cells) (heads_to (forest_of p.now cells) node) above
            (parent_of p.now.tree.nodes node)) }
        ensures stages { OnOk result ((cells : List (Option ℕ)) → AreStagesTo (forest_of p.now cells) node node self.old
            → AreStagesTo (forest_of p.now cells) node (node + 1) self.new) }
    {
        let above = self.stage_of[parent_of(p, node)];
        self.nodes[above as usize].push(node as u32)?;
        Ok(above)
    }

    /// Begins a stage at a node.
    fn begin(&mut self, alloc: Global, node: usize) -> Result<(), Memory>
        requires node { node < 2 ^ 32 }
        requires stages { (f : Forest) × AreStagesTo f node (node + 1) self.old }
        ensures { OnOk result ((f : Forest) → Falls f.parent → is_head f.cell node ≡ true
            → AreStagesTo f node (node + 1) self.old
            → AreStagesTo f (node + 1) (node + 1) self.new) }
    {
        let number = self.nodes.len() as u32;
        self.nodes.push(begun(alloc, node as u32)?)?;
        self.stage_of.push(number)?;
        Ok(())
    }

    /// Puts a node into the stage above it, and begins its own, where it has a cell.
    fn put(
        &mut self,
        alloc: Global,
        p: &Problem,
        cells: &[Option<u32>],
        node: usize,
    ) -> Result<(), Memory>
        requires one_each { length cells.now ≡ length p.now.tree.nodes }
        requires node { node < length p.now.tree.nodes }
        requires stages { AreStagesTo (forest_of p.now cells.now) node node self.old }
        ensures { OnOk result (AreStagesTo (forest_of p.now cells.now) (node + 1) (node + 1) self.new) }
    {
        if node == 0 {
            return self.begin(alloc, node);
        }
        let above = self.end(p, node)?;
        if cells[node].is_some() {
            return self.begin(alloc, node);
        }
        self.stage_of.push(above)?;
        Ok(())
    }

    /// The stages of a net with these cells, one for each node at most. Answers `Memory` where there is no room.
    pub fn of(alloc: Global, p: &Problem, cells: &[Option<u32>]) -> Result<Stages, Memory>
        requires one_each { length cells.now ≡ length p.now.tree.nodes }
        ensures stages { IfOk result (AreStages (forest_of p.now cells.now)) }
    {
        let n = cells.len();
        let mut stages = Stages {
            nodes: Vec::new(alloc),
            stage_of: Vec::with_capacity(alloc, n)?,
        };
        'node: for node in 0..n {
            stages.put(alloc, p, cells, node)?;
        }
        Ok(stages)
    }
}
