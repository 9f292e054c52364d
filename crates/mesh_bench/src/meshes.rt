//! The mesh state with which a problem starts, and a tree to which it goes over.

ghost use Rattle.std.specs.Prelude.{◌≡◌, IfSome};
ghost use Rattle.block_tree.specs.Blocks.{tree_with};
ghost use Rattle.problem_set.specs.SettingsOf.{settings_of};
ghost use Rattle.mesh_rules.specs.Opening.{opening_state, opening_tree};
ghost use Rattle.cell_block.specs.Rules.{StandsFor};
ghost use Rattle.remesh.specs.Remaps.{CanRemap};
ghost use Rattle.mesh_bench.specs.NextTrees.{IsNextOf};

use block_tree::{Tag, Tree};
use cell_block::MeshState;
use input_file::parse;
use problem_set::{Problem, read_problem};
use remesh::{first_mesh, remap_laws};
use std::alloc::Global;
use tree_cases::{fits, tags_with};
use tree_change::next_tree;

/// How many leaves are refined.
const REFINED: u32 = 100;

/// The problem of a deck; None where it is refused.
pub(crate) fn problem_of(alloc: Global, text: &str) -> Option<Problem> {
    let deck = parse(alloc, text.as_bytes()).ok()?;
    read_problem(alloc, &deck).ok()
}

/// The opening tree; None where a part is refined from the start.
fn roots_of(alloc: Global, problem: &Problem) -> Option<Tree>
    ensures { IfSome result (λ tree. tree
        ≡ tree_with problem.now.shape (opening_tree (settings_of problem.now))) }
{
    if problem.statics.is_empty() {
        match Tree::from_static(alloc, problem.shape, problem.cells, &[]) {
            Ok(tree) => Some(tree),
            Err(_) => None,
        }
    } else {
        None
    }
}

/// The mesh state with which a problem's run starts.
pub(crate) fn opened(alloc: Global, problem: &Problem) -> Option<MeshState>
    ensures { IfSome result (λ mesh. StandsFor (settings_of problem.now) mesh
        (opening_state (settings_of problem.now))) }
{
    let tree = roots_of(alloc, problem)?;
    match first_mesh(alloc, problem, tree) {
        Ok(mesh) => Some(mesh),
        Err(_) => None,
    }
}

/// The next tree where the first leaves are refined.
fn next_of(alloc: Global, tree: &Tree) -> Option<Tree>
    ensures { IfSome result (IsNextOf tree.now) }
{
    let Ok(tags) = tags_with(alloc, tree.len(), Tag::Refine, 0, REFINED) else {
        return None;
    };
    if fits(tree, tags.as_slice()) {
        match next_tree(alloc, tree, tags.as_slice()) {
            Ok(next) => Some(next),
            Err(_) => None,
        }
    } else {
        None
    }
}

/// A mesh state, and a tree to which it can go over.
#[derive(Drop)]
pub(crate) struct Change {
    pub(crate) mesh: MeshState,
    pub(crate) next: Tree,
}

/// The mesh state with which a problem's run starts, and the next tree where the first leaves are refined.
pub(crate) fn change_of(alloc: Global, problem: &Problem) -> Option<Change>
    ensures { IfSome result (λ g. CanRemap (settings_of problem.now) g.mesh g.next) }
{
    remap_laws();
    if problem.nlim == 0 {
        return None;
    }
    let mesh = opened(alloc, problem)?;
    let _ = mesh.layout();
    let _ = mesh.tree().len();
    let next = next_of(alloc, mesh.tree())?;
    Some(Change { mesh, next })
}
