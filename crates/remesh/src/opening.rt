//! The mesh state with which a run starts.

ghost use Rattle.std.specs.Prelude.{◌≡◌, ◌-◌, ◌<◌, ◌^◌, ℕ, IfOk, OnOk, length};
ghost use Rattle.block_layout.specs.Layouts.{interior_len};
ghost use Rattle.block_tree.specs.Blocks.{tree_with};
ghost use Rattle.field_bufs.specs.Buffers.{HasSizes};
ghost use Rattle.problem_set.specs.SettingsOf.{settings_of};
ghost use Rattle.mesh_rules.specs.Opening.{opening_state, opening_tree};
ghost use Rattle.dense_remesh.specs.StartBoxes.{amounts};
ghost use Rattle.cell_block.specs.State.{HasLayout, IsIn, epoch_at, leaf_count, place_of};
ghost use Rattle.cell_block.specs.Rules.{IsWhole, StandsFor, interior_of};
ghost use Rattle.remesh.specs.Remaps.{IsFresh};
ghost use Rattle.remesh.specs.Openings.{CanOpen, IsBlockOpened, IsFilledWith, IsOpenedTo, boxes_of_field};

use crate::cells::with_ghosts;
use crate::stores::store;
use block_layout::Layout;
use block_tree::Tree;
use cell_block::MeshState;
use cell_lists::Cells;
use dense_remesh::{boxes_in, boxes_of, opening_block};
use field_bufs::FieldBuf;
use mesh_num::NoMemory;
use problem_set::{Problem, StartBox};
use sparse_pool::{Place, is_idle};
use std::alloc::Global;

/// The buffer of a field on a block with these totals in its own cells, x1 fastest.
fn buffer_with(alloc: Global, layout: &Layout, at: Place, own: &[u64]) -> Result<FieldBuf, NoMemory>
    requires { length own.now ≡ interior_len layout.now }
    ensures place { IfOk result (λ buf. place_of buf ≡ at) }
    ensures stamp { IfOk result (λ buf. buf.stamp ≡ 0) }
    ensures sizes { IfOk result (HasSizes layout.now) }
    ensures own { IfOk result (λ buf. interior_of layout.now buf.cells ≡ own.now) }
{
    let cells = with_ghosts(alloc, layout, own)?;
    let right = Cells::zeros(alloc, layout.face_count())?;
    let left = Cells::zeros(alloc, layout.face_count())?;
    Ok(FieldBuf {
        block: at.block,
        field: at.field,
        stamp: 0,
        cells,
        right,
        left,
    })
}

/// Puts a buffer with these totals in a place.
fn put_block(
    alloc: Global,
    layout: &Layout,
    at: Place,
    own: &[u64],
    mesh: &mut MeshState,
) -> Result<(), NoMemory>
    requires own { length own.now ≡ interior_len layout.now }
    requires layout { HasLayout mesh.old layout.now }
    requires within { IsIn mesh.old at }
    requires whole { IsWhole mesh.old }
    requires epochs { (list : ℕ) → epoch_at mesh.old list < 2 ^ 64 - 1 }
    ensures whole { OnOk result (IsWhole mesh.new) }
    ensures filled { OnOk result (IsFilledWith layout.now at own.now mesh.old mesh.new) }
{
    let buf = buffer_with(alloc, layout, at, own)?;
    store(mesh, buf, 0)
}

/// Puts what boxes put of a field into a block. Where that is nothing, the block stays as it was.
fn open_block(
    alloc: Global,
    layout: &Layout,
    at: Place,
    boxes: &[StartBox],
    mesh: &mut MeshState,
) -> Result<(), NoMemory>
    requires layout { HasLayout mesh.old layout.now }
    requires within { IsIn mesh.old at }
    requires whole { IsWhole mesh.old }
    requires epochs { (list : ℕ) → epoch_at mesh.old list < 2 ^ 64 - 1 }
    requires amounts { amounts boxes.now < 2 ^ 62 }
    ensures { OnOk result (IsBlockOpened layout.now at boxes.now mesh.old mesh.new) }
{
    let leaf = mesh.tree().leaf_at(at.block);
    if boxes_in(alloc, layout, boxes, &leaf)?.is_empty() {
        return Ok(());
    }
    let own = opening_block(alloc, layout, boxes, &leaf)?;
    if is_idle(own.as_slice(), 0) {
        return Ok(());
    }
    put_block(alloc, layout, at, own.as_slice(), mesh)
}

/// Puts what the boxes of a field put there into all blocks.
fn open_field(
    alloc: Global,
    problem: &Problem,
    layout: &Layout,
    field: u32,
    mesh: &mut MeshState,
) -> Result<(), NoMemory>
    requires { CanOpen (settings_of problem.now) layout.now field mesh.old }
    ensures { OnOk result (IsOpenedTo (settings_of problem.now) layout.now field (boxes_of_field problem.now.boxes field) mesh.old mesh.new (leaf_count mesh.old)) }
{
    let boxes = boxes_of(alloc, problem.boxes.as_slice(), field)?;
    if boxes.is_empty() {
        return Ok(());
    }
    for block in 0..mesh.tree().len() {
        open_block(
            alloc,
            layout,
            Place { block, field },
            boxes.as_slice(),
            mesh,
        )?;
    }
    Ok(())
}

/// The mesh state with which a problem's run starts, on its opening tree.
///
/// A field that no block may go without is allocated on each, and a sparse one where a box puts something. Idle counts, tag
/// counters, stamps and epochs are 0.
pub fn first_mesh(alloc: Global, problem: &Problem, tree: Tree) -> Result<MeshState, NoMemory>
    requires { tree ≡ tree_with problem.now.shape (opening_tree (settings_of problem.now)) }
    ensures state { IfOk result (λ mesh. StandsFor (settings_of problem.now) mesh (opening_state (settings_of problem.now))) }
    ensures fresh { IfOk result IsFresh }
{
    let layout = Layout::of(problem);
    let _ = tree.len();
    let mut mesh = MeshState::empty(alloc, problem, tree)?;
    for field in 0..problem.fields.count() {
        open_field(alloc, problem, &layout, field, &mut mesh)?;
    }
    mesh.restart_epochs();
    let _ = mesh.tree();
    Ok(mesh)
}
