//! The update of the buffers of a lease.

ghost use Rattle.std.specs.Prelude.{◌≡◌, ◌+◌, ◌-◌, ◌<◌, ◌≤◌, ◌^◌, ℕ, All, IfOk, length, map, slice_index};
ghost use Rattle.std.specs.List.{slice_index_or};
ghost use Rattle.package_fields.specs.Flow.{no_flow};
ghost use Rattle.block_layout.specs.Layouts.{len};
ghost use Rattle.block_layout.specs.Faces.{face_count};
ghost use Rattle.field_bufs.specs.Buffers.{HasSizes};
ghost use Rattle.transport_kernel.specs.Update.{CanPass, GhostsStay, HasPassed, listed};
ghost use Rattle.lent_bufs.specs.Meshes.{IsTreeOf, mesh_in};
ghost use Rattle.lent_bufs.specs.Kept.{is_among};
ghost use Rattle.lent_bufs.specs.Buffers.{IsBufferOn};
ghost use Rattle.lent_bufs.specs.Kept.{AreKeptOf};
ghost use Rattle.lent_bufs.specs.Sums.{sum_of_field, with_flow};
ghost use Rattle.stage_tasks.specs.Updates.{IsChange, advanced, dropped_of, inflow_in, outflow_in, updated_buf};

use block_layout::Layout;
use block_tree::Tree;
use cell_lists::Cells;
use field_bufs::FieldBuf;
use leaf_stages::leaf_flows;
use lent_bufs::{add_amount, add_flow, clear_unless, is_next};
use mesh_num::NoMemory;
use package_fields::{Flows, Items};
use problem_set::Problem;
use sparse_pool::Place;
use std::alloc::Global;
use transport_kernel::update;

/// What comes of an update beside the buffers.
#[derive(Drop)]
pub struct Updated {
    /// By field, what passes faces of the domain.
    pub flows: Flows,
    /// By field, what is dropped.
    pub drops: Items<u128>,
}

/// What comes of the update of one buffer.
#[derive(Clone, Copy)]
pub(crate) struct Change {
    pub(crate) inflow: u128,
    pub(crate) outflow: u128,
    pub(crate) dropped: u128,
}

/// Makes of a block's cells those after the stage.
fn advance(layout: &Layout, cells: &mut Cells, right: &Cells, left: &Cells)
    requires cell_list { length cells.old ≡ len layout.now }
    requires right_list { length right.now ≡ face_count layout.now }
    requires left_list { length left.now ≡ face_count layout.now }
    requires passes { CanPass layout.now (listed layout.now right.now) (listed layout.now left.now) cells.old }
    ensures passed { HasPassed layout.now (listed layout.now right.now)
        (listed layout.now left.now) cells.old cells.new }
    ensures ghosts { GhostsStay layout.now cells.old cells.new }
    ensures size { length cells.new ≡ length cells.old }
{
    update(
        layout,
        cells.as_mut_slice(),
        right.as_slice(),
        left.as_slice(),
    );
}

/// Makes of a buffer's totals those after the stage.
fn advance_buf(problem: &Problem, tree: &Tree, layout: &Layout, buf: &mut FieldBuf)
    requires sizes { HasSizes layout.now buf.old }
    requires passes { CanPass layout.now (listed layout.now buf.old.right) (listed layout.now buf.old.left)
        buf.old.cells }
    ensures { buf.new ≡ advanced (mesh_in problem.now tree.now layout.now) buf.old }
{
    advance(layout, &mut buf.cells, &buf.right, &buf.left);
}

/// Updates a buffer.
fn update_buf(
    problem: &Problem,
    tree: &Tree,
    layout: &Layout,
    kept: bool,
    buf: &mut FieldBuf,
) -> Change
    requires tree { IsTreeOf problem.now tree.now layout.now }
    requires buf { IsBufferOn problem.now tree.now layout.now buf.old }
    requires stamp { buf.old.stamp < 2 ^ 32 - 1 }
    requires passes { CanPass layout.now (listed layout.now buf.old.right) (listed layout.now buf.old.left)
        buf.old.cells }
    ensures buffer { buf.new ≡ updated_buf (mesh_in problem.now tree.now layout.now) kept buf.old }
    ensures change { IsChange (mesh_in problem.now tree.now layout.now) kept buf.old result }
{
    let flows = leaf_flows(tree, layout, buf.block, &buf.right, &buf.left);
    advance_buf(problem, tree, layout, buf);
    let dropped = clear_unless(kept, layout, buf);
    buf.stamp += 1;
    Change {
        inflow: flows.inflow,
        outflow: flows.outflow,
        dropped,
    }
}

/// Makes of the totals of each buffer those after the stage, by what passes its faces. The own totals of a buffer that
/// is not kept are then made zero, and what they were is dropped. Stamps rise by one. After want of memory the buffers
/// hold anything.
pub fn update_bufs(
    alloc: Global,
    problem: &Problem,
    tree: &Tree,
    layout: &Layout,
    kept: &[Place],
    bufs: &mut [FieldBuf],
) -> Result<Updated, NoMemory>
    requires tree { IsTreeOf problem.now tree.now layout.now }
    requires bufs { All (IsBufferOn problem.now tree.now layout.now) bufs.old }
    requires few { length bufs.old ≤ 2 ^ 40 }
    requires kept { AreKeptOf bufs.old kept.now }
    requires stamps { All (λ buf. buf.stamp < 2 ^ 32 - 1) bufs.old }
    requires passes { All (λ buf. CanPass layout.now (listed layout.now buf.right) (listed layout.now buf.left)
        buf.cells) bufs.old }
    ensures bufs { let w = mesh_in problem.now tree.now layout.now in
        IfOk result (λ r. bufs.new ≡ map (λ buf. updated_buf w (is_among kept.now buf.block buf.field) buf) bufs.old) }
    ensures flows { let w = mesh_in problem.now tree.now layout.now in
        IfOk result (λ r. (f : ℕ) → slice_index_or r.flows f no_flow
        ≡ with_flow no_flow (sum_of_field bufs.old (inflow_in w) f) (sum_of_field bufs.old (outflow_in w) f)) }
    ensures few_flows { IfOk result (λ r. length r.flows ≤ length problem.now.moves) }
    ensures drops { let w = mesh_in problem.now tree.now layout.now in
        IfOk result (λ r. (f : ℕ) → slice_index r.drops f ≡ sum_of_field bufs.old (dropped_of w kept.now) f) }
    ensures few_drops { IfOk result (λ r. length r.drops ≤ length problem.now.moves) }
{
    let mut flows = Vec::new(alloc);
    let mut drops = Vec::new(alloc);
    let mut next = 0;
    for buf in bufs.iter_mut() {
        let here = is_next(kept, next, buf);
        let change = update_buf(problem, tree, layout, here, buf);
        add_flow(&mut flows, buf.field, change.inflow, change.outflow)?;
        add_amount(&mut drops, buf.field, change.dropped)?;
        next += usize::from(here);
    }
    Ok(Updated {
        flows: Flows::from_vec(flows),
        drops: Items::from_vec(drops),
    })
}
