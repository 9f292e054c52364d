//! The tree of blocks.

ghost use Rattle.std.specs.Prelude.{◌≡◌, ◌<◌, ◌≤◌, Bool, [], Some, IfOk, IfErr, All, length, slice_get};
ghost use Rattle.morton_order.specs.declared.space.Loc.{Loc};
ghost use Rattle.morton_order.specs.declared.space.Shape.{Shape};
ghost use Rattle.block_tree.specs.declared.boxes.StaticBox.{StaticBox};
ghost use Rattle.morton_order.specs.Space.{IsIn, IsShape};
ghost use Rattle.block_tree.specs.Tree.{IsBalanced, IsTree, is_listed};
ghost use Rattle.block_tree.specs.Leaves.{leaves_of, roots as roots_of};
ghost use Rattle.block_tree.specs.Least.{least, opening};
ghost use Rattle.block_tree.specs.Behind.{behind as behind_of};
ghost use Rattle.block_tree.specs.Blocks.{IsBlockTree, TreeOfBlocks, RefusedAtStart, RefusedByCount, is_inner_of, leaves, tree_with};
ghost use Rattle.block_tree.specs.Nodes.{number_in};
ghost use Rattle.block_tree.specs.Numbered.{numbered};
ghost use Rattle.block_tree.specs.Worklist.{AreRoomy};

use crate::balance::balance;
use crate::boxes::StaticBox;
use crate::fault::TreeFault;
use crate::grow::{MOST_LEAVES, few_roots, list_leaves, list_roots};
use crate::neighbour::Behind;
use crate::nodes::Nodes;
use crate::opening::opening_nodes;
use crate::table::{Sides, table_of};
use mesh_num::NoMemory;
use morton_order::{Loc, Shape, Side};
use std::alloc::Global;
use std::marker::Model;

/// A tree of blocks, balanced two to one over faces, edges and corners. Its leaves are numbered from 0 by rising key.
///
/// It has at most 65,536 leaves. What is behind each side of each leaf stands in a table.
#[derive(Drop)]
pub struct Tree {
    shape: Shape,
    nodes: Nodes,
    leaves: Nodes,
    table: Vec<Sides>,
}

impl Model for Tree {
    ghost use Rattle.block_tree.specs.Tree.{is_listed};
    ghost use Rattle.block_tree.specs.Blocks.{TreeOfBlocks, tree_with};
    ghost use Rattle.block_tree.specs.Table.{IsKept};

    ghost Value = { TreeOfBlocks };

    ghost view = { λ t. tree_with t.shape (is_listed t.nodes) };

    ghost invariant = { λ t. IsKept t.shape t.nodes t.leaves t.table.items };
}

impl Tree {
    /// The tree whose leaves are the roots.
    pub fn from_root(alloc: Global, shape: Shape) -> Result<Tree, NoMemory>
        requires shape { IsShape shape }
        requires few { length (roots_of shape) ≤ 65536 }
        ensures { IfOk result (λ tree. tree ≡ tree_with shape (is_listed [])) }
    {
        Tree::from_inner(alloc, shape, &[])
    }

    /// The tree with these inner nodes, given in any order.
    pub fn from_inner(alloc: Global, shape: Shape, inner: &[Loc]) -> Result<Tree, NoMemory>
        requires shape { IsShape shape }
        requires tree { IsTree shape (is_listed inner.now) }
        requires balanced { IsBalanced shape (is_listed inner.now) }
        requires few { length (leaves_of shape (is_listed inner.now)) ≤ 65536 }
        ensures { IfOk result (λ tree. tree ≡ tree_with shape (is_listed inner.now)) }
    {
        let nodes = Nodes::from_slice(alloc, inner)?;
        let roots = list_roots(alloc, &shape)?;
        let leaves = list_leaves(alloc, &shape, roots.as_slice(), &nodes)?;
        Tree::with_leaves(alloc, shape, nodes, leaves.as_slice())
    }

    /// The least balanced tree that holds some locations as inner nodes.
    ///
    /// TooManyBlocks comes where that tree has more than 65,536 leaves, and carries their number.
    pub fn grown(alloc: Global, shape: Shape, wanted: &[Loc]) -> Result<Tree, TreeFault>
        requires shape { IsShape shape }
        requires few { length (roots_of shape) ≤ 65536 }
        requires roomy { AreRoomy shape wanted.now }
        ensures grown { IfOk result (λ tree. tree ≡ tree_with shape (least 9 shape (is_listed wanted.now))) }
        ensures fault { IfErr result (RefusedByCount shape (least 9 shape (is_listed wanted.now))) }
    {
        let mut nodes = Nodes::from_slice(alloc, wanted)?;
        balance(alloc, &shape, usize::MAX, &mut nodes)?;
        let roots = list_roots(alloc, &shape)?;
        Tree::with_roots(alloc, shape, roots.as_slice(), nodes)
    }

    /// The least balanced tree in which each node that meets a box of a greater level is inner. A block has `cells`
    /// cells along x1, x2 and x3.
    ///
    /// TooManyAtStart comes where that tree has more than 65,536 leaves; TooManyBlocks never comes.
    pub fn from_static(
        alloc: Global,
        shape: Shape,
        cells: [u32; 3],
        boxes: &[StaticBox],
    ) -> Result<Tree, TreeFault>
        requires shape { IsShape shape }
        requires cells { All (λ n. (1 ≤ n) × (n ≤ 64)) cells }
        requires levels { All (λ (b : StaticBox). b.level ≤ 10) boxes.now }
        ensures opening { IfOk result (λ tree. tree ≡ tree_with shape (opening 9 shape cells boxes.now)) }
        ensures fault { IfErr result (RefusedAtStart shape (opening 9 shape cells boxes.now)) }
    {
        match few_roots(alloc, &shape)? {
            Some(roots) => Tree::with_boxes(alloc, shape, &cells, boxes, roots.as_slice()),
            None => Err(TreeFault::TooManyAtStart),
        }
    }

    /// The opening tree over its roots.
    fn with_boxes(
        alloc: Global,
        shape: Shape,
        cells: &[u32; 3],
        boxes: &[StaticBox],
        roots: &[Loc],
    ) -> Result<Tree, TreeFault>
        requires shape { IsShape shape }
        requires cells { All (λ n. (1 ≤ n) × (n ≤ 64)) cells.now }
        requires levels { All (λ (b : StaticBox). b.level ≤ 10) boxes.now }
        requires roots { roots.now ≡ roots_of shape }
        requires few { length roots.now ≤ 65536 }
        ensures opening { IfOk result (λ tree. tree ≡ tree_with shape (opening 9 shape cells.now boxes.now)) }
        ensures fault { IfErr result (RefusedAtStart shape (opening 9 shape cells.now boxes.now)) }
    {
        match opening_nodes(alloc, &shape, cells, boxes, roots)? {
            Some(nodes) => at_start(Tree::with_roots(alloc, shape, roots, nodes)),
            None => Err(TreeFault::TooManyAtStart),
        }
    }

    /// The same tree once more; this costs little.
    pub fn copy(&self, alloc: Global) -> Result<Tree, NoMemory>
        ensures { IfOk result (λ tree. tree ≡ self.now) }
    {
        let nodes = self.nodes.copy(alloc)?;
        let leaves = self.leaves.copy(alloc)?;
        let mut table = Vec::with_capacity(alloc, self.table.len())?;
        table.extend_from_slice(self.table.as_slice())?;
        Ok(Tree {
            shape: self.shape,
            nodes,
            leaves,
            table,
        })
    }

    /// The tree with some inner nodes, refused where it has too many leaves.
    fn with_roots(
        alloc: Global,
        shape: Shape,
        roots: &[Loc],
        nodes: Nodes,
    ) -> Result<Tree, TreeFault>
        requires shape { IsShape shape }
        requires tree { IsTree shape (is_listed nodes) }
        requires balanced { IsBalanced shape (is_listed nodes) }
        requires roots { roots.now ≡ roots_of shape }
        ensures made { IfOk result (λ tree. tree ≡ tree_with shape (is_listed nodes)) }
        ensures fault { IfErr result (RefusedByCount shape (is_listed nodes)) }
    {
        let leaves = list_leaves(alloc, &shape, roots, &nodes)?;
        if leaves.len() > MOST_LEAVES {
            return Err(TreeFault::TooManyBlocks {
                leaves: leaves.len() as u64,
            });
        }
        Ok(Tree::with_leaves(alloc, shape, nodes, leaves.as_slice())?)
    }

    /// The tree with some inner nodes and their leaves.
    fn with_leaves(
        alloc: Global,
        shape: Shape,
        nodes: Nodes,
        leaves: &[Loc],
    ) -> Result<Tree, NoMemory>
        requires shape { IsShape shape }
        requires tree { IsTree shape (is_listed nodes) }
        requires balanced { IsBalanced shape (is_listed nodes) }
        requires leaves { leaves.now ≡ leaves_of shape (is_listed nodes) }
        requires few { length leaves.now ≤ 65536 }
        ensures { IfOk result (λ tree. tree ≡ tree_with shape (is_listed nodes)) }
    {
        let leaves = Nodes::from_slice(alloc, leaves)?;
        let table = table_of(alloc, &nodes, &leaves, &shape)?;
        Ok(Tree {
            shape,
            nodes,
            leaves,
            table,
        })
    }

    /// The lattice of the roots.
    pub fn shape(&self) -> &Shape
        ensures { result.now ≡ self.now.shape }
    {
        &self.shape
    }

    /// How many leaves there are.
    pub fn len(&self) -> u32
        ensures count { result ≡ length (leaves self.now) }
        ensures kept { IsBlockTree self.now }
    {
        self.leaves.len() as u32
    }

    /// The leaf with a number.
    pub fn leaf_at(&self, i: u32) -> Loc
        requires { i < length (leaves self.now) }
        ensures { slice_get (leaves self.now) i ≡ Some result }
    {
        self.leaves.as_slice()[i as usize]
    }

    /// The leaves in the order of their numbers.
    pub fn leaves(&self) -> &[Loc]
        ensures { result.now ≡ leaves self.now }
    {
        self.leaves.as_slice()
    }

    /// The number of the leaf at a location, none exactly where it is no leaf.
    pub fn find(&self, at: &Loc) -> Option<u32>
        ensures { result ≡ number_in (leaves self.now) at.now }
    {
        match self.leaves.number(at) {
            Some(i) => Some(i as u32),
            None => None,
        }
    }

    /// Whether a location is an inner node.
    pub fn is_inner(&self, at: &Loc) -> bool
        ensures { result ≡ is_inner_of self.now at.now }
    {
        self.nodes.contains(at)
    }

    /// The inner nodes, in no particular order.
    pub fn inner_nodes(&self) -> &[Loc]
        ensures { is_listed result.now ≡ is_inner_of self.now }
    {
        self.nodes.as_slice()
    }

    /// What is behind a side of a leaf; finer leaves stand by rising child number.
    pub fn behind(&self, leaf: u32, side: Side) -> Behind
        requires leaf { leaf < length (leaves self.now) }
        requires axis { side.axis < self.now.shape.dims }
        ensures { (l : Loc) → slice_get (leaves self.now) leaf ≡ Some l
            → numbered (leaves self.now) (behind_of self.now.shape (is_inner_of self.now) l side.axis side.high)
            ≡ Some result }
    {
        self.table[leaf as usize].at(side).answer(self.shape.dims)
    }
}

/// A tree that is refused for its leaves is refused as an opening tree.
fn at_start(made: Result<Tree, TreeFault>) -> Result<Tree, TreeFault>
    ensures same { (v : TreeOfBlocks) → IfOk made (λ tree. tree ≡ v) → IfOk result (λ tree. tree ≡ v) }
    ensures fault { (s : Shape) (inner : Loc → Bool) → IfErr made (RefusedByCount s inner)
        → IfErr result (RefusedAtStart s inner) }
{
    match made {
        Ok(tree) => Ok(tree),
        Err(TreeFault::TooManyAtStart) => Err(TreeFault::TooManyAtStart),
        Err(TreeFault::TooManyBlocks { .. }) => Err(TreeFault::TooManyAtStart),
        Err(TreeFault::NoMemory) => Err(TreeFault::NoMemory),
    }
}
