//! The mesh of tasks.

use block_layout::Layout;
use block_tree::Tree;
use problem_set::Problem;

/// A mesh on which tasks work: its problem, its tree, and how the totals of its blocks lie in lists.
#[derive(Clone, Copy)]
pub struct TaskMesh<'a> {
    pub problem: &'a Problem,
    pub tree: &'a Tree,
    pub layout: &'a Layout,
}
