//! The check of the buffers of a lease.

ghost use Rattle.std.specs.Prelude.{◌≡◌, ◌==◌, ◌&&◌, ◌+◌, ◌<◌, ◌≤◌, ◌^◌, ◌++◌, ◌∷◌, ℕ, [], All, IfOk, OnOk, cond, not, length, max, slice_index, sum};
ghost use Rattle.sparse_rounds.specs.Masked.{idle_next, is_freed};
ghost use Rattle.field_bufs.specs.Buffers.{HasSizes};
ghost use Rattle.cycle_kernels.specs.Kernels.{kernels_of};
ghost use Rattle.cycle_kernels.specs.Lists.{own_totals};
ghost use Rattle.lent_bufs.specs.Buffers.{place_of as place_of_buf};
ghost use Rattle.lent_bufs.specs.Meshes.{IsTreeOf, mesh_in};
ghost use Rattle.lent_bufs.specs.Buffers.{IsBufferOn};
ghost use Rattle.lent_bufs.specs.Kept.{AreKeptOf};
ghost use Rattle.tail_tasks.specs.Checks.{counts_after, drop_of, freed_of};

use block_layout::Layout;
use block_tree::Tree;
use dense_mask::is_sparse;
use field_bufs::FieldBuf;
use lent_bufs::{add_amount, has_above, is_next, own_total, place_of};
use mesh_num::NoMemory;
use package_fields::Items;
use problem_set::Problem;
use sparse_pool::{Checked, Place, Places, note_check};
use std::alloc::Global;

/// What comes of a check.
#[derive(Drop)]
pub struct CheckedBufs {
    /// The next idle count of each buffer.
    pub counts: Items<u32>,
    /// The places whose buffers are freed.
    pub freed: Places,
    /// By field, what is dropped.
    pub drops: Items<u128>,
}

/// What a check leaves of one buffer.
#[derive(Clone, Copy)]
pub(crate) struct CheckedBuf {
    pub(crate) count: u32,
    pub(crate) keeps: bool,
}

/// What a check leaves of a buffer that is kept and of a sparse field.
fn left_by(checked: Checked) -> CheckedBuf
    ensures count { result.count ≡ cond checked.free 0 checked.count }
    ensures keeps { result.keeps ≡ not checked.free }
{
    if checked.free {
        CheckedBuf {
            count: 0,
            keeps: false,
        }
    } else {
        CheckedBuf {
            count: checked.count,
            keeps: true,
        }
    }
}

/// The check of one buffer.
fn check_buf(
    problem: &Problem,
    tree: &Tree,
    layout: &Layout,
    kept: bool,
    count: u32,
    buf: &FieldBuf,
) -> CheckedBuf
    requires buf { IsBufferOn problem.now tree.now layout.now buf.now }
    requires count { count < problem.now.dealloc_count }
    ensures count { let w = mesh_in problem.now tree.now layout.now in
        result.count ≡ idle_next (kernels_of w) (own_totals w.layout buf.now.cells) kept count buf.now.field }
    ensures keeps { let w = mesh_in problem.now tree.now layout.now in
        result.keeps ≡ (kept
        && not (is_freed (kernels_of w) (own_totals w.layout buf.now.cells) kept count buf.now.field)) }
{
    if !kept {
        return CheckedBuf {
            count,
            keeps: false,
        };
    }
    if !is_sparse(problem, buf.field) {
        return CheckedBuf { count, keeps: true };
    }
    let above = has_above(layout, buf.cells.as_slice(), problem.dealloc_threshold);
    left_by(note_check(count, !above, problem.dealloc_count))
}

/// Frees a buffer that is not kept, and drops what it holds.
fn free_unless(
    layout: &Layout,
    keeps: bool,
    buf: &FieldBuf,
    freed: &mut Vec<Place>,
    drops: &mut Vec<u128>,
) -> Result<(), NoMemory>
    requires sizes { HasSizes layout.now buf.now }
    requires small { length drops.old.items < 2 ^ 33 }
    requires fits { slice_index drops.old.items buf.now.field + 2 ^ 82 < 2 ^ 128 }
    ensures freed { OnOk result (freed.new.items
        ≡ cond keeps freed.old.items (freed.old.items ++ place_of_buf buf.now ∷ [])) }
    ensures drops { OnOk result ((f : ℕ) → slice_index drops.new.items f ≡ slice_index drops.old.items f
        + cond (f == buf.now.field) (cond keeps 0 (sum (own_totals layout.now buf.now.cells))) 0) }
    ensures most { OnOk result ((f : ℕ) → slice_index drops.new.items f ≤ slice_index drops.old.items f + 2 ^ 82) }
    ensures few { OnOk result (length drops.new.items ≤ max (length drops.old.items) (buf.now.field + 1)) }
{
    if keeps {
        return Ok(());
    }
    freed.push(place_of(buf))?;
    add_amount(drops, buf.field, own_total(layout, buf.cells.as_slice()))
}

/// Checks each buffer, whose idle count stands at its place in `counts`: a sparse field that is kept has been idle at
/// one more check where none of its totals is above the threshold for that, and is freed once it was so often enough;
/// a buffer that is not kept is freed. What freed buffers hold is dropped.
pub fn check_bufs(
    alloc: Global,
    problem: &Problem,
    tree: &Tree,
    layout: &Layout,
    kept: &[Place],
    counts: &[u32],
    bufs: &[FieldBuf],
) -> Result<CheckedBufs, NoMemory>
    requires tree { IsTreeOf problem.now tree.now layout.now }
    requires bufs { All (IsBufferOn problem.now tree.now layout.now) bufs.now }
    requires few { length bufs.now ≤ 2 ^ 40 }
    requires kept { AreKeptOf bufs.now kept.now }
    requires as_many { length counts.now ≡ length bufs.now }
    requires counts { All (λ count. count < problem.now.dealloc_count) counts.now }
    ensures counts { let w = mesh_in problem.now tree.now layout.now in
        IfOk result (λ r. r.counts ≡ counts_after w kept.now bufs.now counts.now) }
    ensures freed { let w = mesh_in problem.now tree.now layout.now in
        IfOk result (λ r. r.freed ≡ freed_of w kept.now bufs.now counts.now) }
    ensures drops { let w = mesh_in problem.now tree.now layout.now in
        IfOk result (λ r. (f : ℕ) → slice_index r.drops f ≡ drop_of w kept.now f bufs.now counts.now) }
    ensures few_drops { IfOk result (λ r. length r.drops ≤ length problem.now.moves) }
{
    let mut next_counts = Vec::with_capacity(alloc, bufs.len())?;
    let mut freed = Vec::new(alloc);
    let mut drops = Vec::new(alloc);
    let mut next = 0;
    for at in 0..bufs.len() {
        let buf = &bufs[at];
        let here = is_next(kept, next, buf);
        let checked = check_buf(problem, tree, layout, here, counts[at], buf);
        next_counts.push(checked.count)?;
        free_unless(layout, checked.keeps, buf, &mut freed, &mut drops)?;
        next += usize::from(here);
    }
    Ok(CheckedBufs {
        counts: Items::from_vec(next_counts),
        freed: Places::from_vec(freed),
        drops: Items::from_vec(drops),
    })
}
