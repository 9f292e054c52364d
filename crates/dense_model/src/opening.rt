//! Where a run opens.

ghost use Rattle.std.specs.Prelude.{◌≡◌, IfOk, IfErr, OnOk, map, length, replicate};
ghost use Rattle.problem_set.specs.Settings.{Settings};
ghost use Rattle.problem_set.specs.SettingsOf.{settings_of};
ghost use Rattle.block_tree.specs.Blocks.{RefusedAtStart, tree_with};
ghost use Rattle.mesh_rules.specs.Opening.{opening_state, opening_tree as opening_tree_of, static_of};
ghost use Rattle.dense_cycle.specs.Held.{IsHeldIn, state_of};
ghost use Rattle.mesh_rules.specs.Run.{running, start_of};
ghost use Rattle.dense_model.specs.RunFiles.{CannotStart, run_of};

use crate::fault::DenseFault;
use block_layout::Layout;
use block_tree::{StaticBox, Tree, TreeFault};
use dense_cycle::{DenseHeld, DenseState};
use dense_mask::kept_at_start;
use dense_remesh::opening_lists;
use mesh_num::NoMemory;
use package_fields::Items;
use problem_set::Problem;
use std::alloc::Global;

/// The parts of the mesh that are refined from the start.
fn static_boxes(alloc: Global, problem: &Problem) -> Result<Vec<StaticBox>, NoMemory>
    ensures { IfOk result (λ boxes. boxes.items ≡ map static_of problem.now.statics) }
{
    let mut boxes = Vec::new(alloc);
    for part in problem.statics.as_slice() {
        boxes.push(StaticBox {
            level: part.level,
            lo: part.lo,
            hi: part.hi,
        })?;
    }
    Ok(boxes)
}

/// An opening tree that is refused stops the run at its start.
fn stops_at_start(fault: TreeFault) -> DenseFault
    ensures { (p : Settings) → RefusedAtStart p.shape (opening_tree_of p) fault → CannotStart p result }
{
    match fault {
        TreeFault::NoMemory => DenseFault::NoMemory,
        TreeFault::TooManyAtStart => DenseFault::TooManyAtStart,
        TreeFault::TooManyBlocks { .. } => DenseFault::TooManyAtStart,
    }
}

/// The tree at the start.
fn opening_tree(alloc: Global, problem: &Problem) -> Result<Tree, DenseFault>
    ensures tree { IfOk result (λ tree. tree
        ≡ tree_with problem.now.shape (opening_tree_of (settings_of problem.now))) }
    ensures fault { IfErr result (CannotStart (settings_of problem.now)) }
{
    let boxes = static_boxes(alloc, problem)?;
    match Tree::from_static(alloc, problem.shape, problem.cells, boxes.as_slice()) {
        Ok(tree) => Ok(tree),
        Err(fault) => Err(stops_at_start(fault)),
    }
}

/// A counter for each leaf, which has wished nothing yet.
fn no_counters(alloc: Global, leaves: u32) -> Result<Vec<u32>, NoMemory>
    ensures { IfOk result (λ counters. counters.items ≡ replicate leaves 0) }
{
    let counters = vec![in alloc; 0u32; leaves as usize]?;
    Ok(counters)
}

/// The state at the start on its tree.
fn opening_on(
    alloc: Global,
    problem: &Problem,
    tree: &Tree,
    layout: &Layout,
) -> Result<DenseState, NoMemory>
    requires tree { tree.now ≡ tree_with problem.now.shape (opening_tree_of (settings_of problem.now)) }
    requires dims { layout.now.dims ≡ problem.now.shape.dims }
    requires cells { layout.now.cells ≡ problem.now.cells }
    ensures state { IfOk result (λ state. state_of tree.now problem.now.cells state
        ≡ opening_state (settings_of problem.now)) }
    ensures held { IfOk result (λ state. IsHeldIn (settings_of problem.now) tree.now layout.now state.held) }
{
    let counters = no_counters(alloc, tree.len())?;
    let lists = opening_lists(alloc, problem, tree, layout)?;
    let slots = kept_at_start(alloc, problem, tree, layout, lists.as_slice())?;
    Ok(DenseState {
        held: DenseHeld {
            lists: Items::from_vec(lists),
            slots: Items::from_vec(slots),
        },
        counters: Items::from_vec(counters),
    })
}

/// A run before its first cycle.
#[derive(Drop)]
pub(crate) struct Opened {
    pub layout: Layout,
    pub tree: Tree,
    pub state: DenseState,
}

/// Opens a run: on the least balanced tree that the static boxes want, with the amounts of the boxes.
pub(crate) fn open(alloc: Global, problem: &Problem) -> Result<Opened, DenseFault>
    ensures state { IfOk result (λ o. state_of o.tree problem.now.cells o.state
        ≡ opening_state (settings_of problem.now)) }
    ensures held { IfOk result (λ o. IsHeldIn (settings_of problem.now) o.tree o.layout o.state.held) }
    ensures runs { OnOk result (run_of (settings_of problem.now) 0
        ≡ running (start_of (settings_of problem.now) (opening_state (settings_of problem.now)))) }
    ensures fault { IfErr result (CannotStart (settings_of problem.now)) }
{
    let layout = Layout::of(problem);
    let tree = opening_tree(alloc, problem)?;
    let _ = tree.len();
    let state = opening_on(alloc, problem, &tree, &layout)?;
    Ok(Opened {
        layout,
        tree,
        state,
    })
}
