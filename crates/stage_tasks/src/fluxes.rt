//! What passes the faces of the buffers of a lease.

ghost use Rattle.std.specs.Prelude.{◌≡◌, ◌<◌, ◌^◌, All, OnOk, Some, length, map, slice_get};
ghost use Rattle.morton_order.specs.declared.space.Loc.{Loc};
ghost use Rattle.block_tree.specs.Blocks.{leaves};
ghost use Rattle.problem_set.specs.SettingsOf.{settings_of};
ghost use Rattle.block_layout.specs.Layouts.{len};
ghost use Rattle.block_layout.specs.Faces.{face_count};
ghost use Rattle.upwind_fluxes.specs.declared.donor.Donor.TheVariants.{Below, Above};
ghost use Rattle.upwind_fluxes.specs.Multipliers.{AreOf};
ghost use Rattle.leaf_stages.specs.Rates.{AreFluxesBy, AreLevelPortions};
ghost use Rattle.lent_bufs.specs.Meshes.{IsTreeOf, mesh_in};
ghost use Rattle.lent_bufs.specs.Buffers.{IsBufferOn};
ghost use Rattle.stage_tasks.specs.Fluxes.{with_fluxes};

use crate::portions::{no_numbers, portions_of};
use block_layout::Layout;
use block_tree::Tree;
use cell_lists::Cells;
use field_bufs::FieldBuf;
use leaf_stages::{LevelPortions, closed_sides};
use mesh_num::NoMemory;
use problem_set::Problem;
use slope_kernel::slope_fluxes_by;
use std::alloc::Global;
use upwind_fluxes::fluxes_by;

/// Writes what passes every face of a block, by the first or the second order.
fn list_fluxes(
    layout: &Layout,
    order: u32,
    portions: &LevelPortions,
    closed: &[bool; 6],
    cells: &[u64],
    right: &mut [u64],
    left: &mut [u64],
)
    requires cell_list { length cells.now ≡ len layout.now }
    requires right_list { length right.old ≡ face_count layout.now }
    requires left_list { length left.old ≡ face_count layout.now }
    requires multipliers { AreOf portions.now.rates portions.now.multipliers }
    requires small { All (λ t. t < 2 ^ 62) cells.now }
    ensures right { AreFluxesBy order layout.now Below portions.now.rates closed.now cells.now right.new }
    ensures left { AreFluxesBy order layout.now Above portions.now.rates closed.now cells.now left.new }
{
    let rates = &portions.rates;
    let multipliers = &portions.multipliers;
    if order == 2 {
        slope_fluxes_by(layout, rates, multipliers, closed, cells, right, left);
    } else {
        fluxes_by(layout, rates, multipliers, closed, cells, right, left);
    }
}

/// The same for lists of a buffer.
fn write_fluxes(
    layout: &Layout,
    order: u32,
    portions: &LevelPortions,
    closed: &[bool; 6],
    cells: &Cells,
    right: &mut Cells,
    left: &mut Cells,
)
    requires cell_list { length cells.now ≡ len layout.now }
    requires right_list { length right.old ≡ face_count layout.now }
    requires left_list { length left.old ≡ face_count layout.now }
    requires multipliers { AreOf portions.now.rates portions.now.multipliers }
    requires small { All (λ t. t < 2 ^ 62) cells.now }
    ensures right { AreFluxesBy order layout.now Below portions.now.rates closed.now cells.now right.new }
    ensures left { AreFluxesBy order layout.now Above portions.now.rates closed.now cells.now left.new }
    ensures right_size { length right.new ≡ face_count layout.now }
    ensures left_size { length left.new ≡ face_count layout.now }
{
    list_fluxes(
        layout,
        order,
        portions,
        closed,
        cells.as_slice(),
        right.as_mut_slice(),
        left.as_mut_slice(),
    );
}

/// Writes what passes the faces of a buffer's block.
fn buf_fluxes(
    problem: &Problem,
    tree: &Tree,
    layout: &Layout,
    portions: &LevelPortions,
    buf: &mut FieldBuf,
)
    requires tree { IsTreeOf problem.now tree.now layout.now }
    requires buf { IsBufferOn problem.now tree.now layout.now buf.old }
    requires portions { AreLevelPortions (settings_of problem.now) buf.old.field portions.now }
    requires level { (l : Loc) → slice_get (leaves tree.now) buf.old.block ≡ Some l → portions.now.level ≡ l.level }
    requires small { All (λ t. t < 2 ^ 62) buf.old.cells }
    ensures { buf.new ≡ with_fluxes (mesh_in problem.now tree.now layout.now) buf.old }
{
    let closed = closed_sides(problem, tree, buf.block);
    let order = problem.moves.as_slice()[buf.field as usize].order;
    write_fluxes(
        layout,
        order,
        portions,
        &closed,
        &buf.cells,
        &mut buf.right,
        &mut buf.left,
    );
}

/// Writes in each buffer what passes the faces of its block by its own totals and ghosts: to the right and to the left,
/// by the field's order, and nothing at reflecting faces of the domain. Multipliers are made once for a field and a
/// level. After want of memory the buffers hold anything.
pub fn compute_fluxes(
    alloc: Global,
    problem: &Problem,
    tree: &Tree,
    layout: &Layout,
    bufs: &mut [FieldBuf],
) -> Result<(), NoMemory>
    requires tree { IsTreeOf problem.now tree.now layout.now }
    requires bufs { All (IsBufferOn problem.now tree.now layout.now) bufs.old }
    requires small { All (λ buf. All (λ t. t < 2 ^ 62) buf.cells) bufs.old }
    ensures { OnOk result (bufs.new ≡ map (with_fluxes (mesh_in problem.now tree.now layout.now)) bufs.old) }
{
    if bufs.is_empty() {
        return Ok(());
    }
    let mut numbers = no_numbers(alloc, problem)?;
    let mut made = Vec::new(alloc);
    for buf in bufs.iter_mut() {
        let level = tree.leaf_at(buf.block).level;
        let portions = portions_of(problem, buf.field, level, &mut numbers, &mut made)?;
        buf_fluxes(problem, tree, layout, &portions, buf);
    }
    Ok(())
}
