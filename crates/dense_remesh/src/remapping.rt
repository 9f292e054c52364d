//! Totals on the next tree.

ghost use Rattle.std.specs.Prelude.{◌≡◌, ◌<◌, ◌≤◌, ℕ, IfOk, length};
ghost use Rattle.std.specs.List.{slice_index_or};
ghost use Rattle.block_tree.specs.Blocks.{is_inner_of, leaves};
ghost use Rattle.block_tree.specs.Next.{IsNear};
ghost use Rattle.block_layout.specs.Layouts.{interior_len};
ghost use Rattle.morton_order.specs.Space.{child_number, parts as parts_of};
ghost use Rattle.problem_set.specs.SettingsOf.{settings_of};
ghost use Rattle.mesh_rules.specs.Fields.{field_count};
ghost use Rattle.dense_mesh.specs.Meshes.{IsMeshIn};
ghost use Rattle.dense_remesh.specs.Lists.{AreRemapped, HaveLeafLists};
ghost use Rattle.dense_remesh.specs.declared.origins.Origin.{Origin};
ghost use Rattle.dense_remesh.specs.Parts.{AreTaken, CanTake, HasChildSums, HasParentShares, IsChildList, IsTaken};

use crate::opening_cells::number_in_parent;
use crate::origins::{Origin, leaf_origins};
use crate::parts::{write_shares, write_sums};
use block_layout::Layout;
use block_tree::Tree;
use cell_lists::Cells;
use dense_mesh::FieldTotals;
use mesh_num::NoMemory;
use morton_order::Loc;
use problem_set::Problem;
use std::alloc::Global;

/// The totals of a leaf whose parent was one.
pub fn child_shares(
    alloc: Global,
    layout: &Layout,
    at: &Loc,
    coarse: &[u64],
) -> Result<Cells, NoMemory>
    requires { length coarse.now ≡ interior_len layout.now }
    ensures size { IfOk result (λ list. length list ≡ interior_len layout.now) }
    ensures shares { IfOk result (λ list. HasParentShares layout.now coarse.now
        (child_number layout.now.dims at.now) list) }
{
    let place = [u64::from(at.l1), u64::from(at.l2), u64::from(at.l3)];
    let number = number_in_parent(layout.dims, &place);
    let mut totals = vec![in alloc; 0u64; layout.interior_len()]?;
    write_shares(layout, number, coarse, totals.as_mut_slice());
    Ok(Cells::of(totals))
}

/// The totals of a leaf whose children were leaves.
fn sums(
    alloc: Global,
    layout: &Layout,
    numbers: &[Option<u32>; 8],
    field: &[Cells],
) -> Result<Cells, NoMemory>
    requires { (j : ℕ) → j < parts_of layout.now.dims
        → IsChildList layout.now field.now (slice_index_or numbers.now j None) }
    ensures size { IfOk result (λ list. length list ≡ interior_len layout.now) }
    ensures sums { IfOk result (λ list. HasChildSums layout.now field.now numbers.now (parts_of layout.now.dims) list) }
{
    let mut totals = vec![in alloc; 0u64; layout.interior_len()]?;
    write_sums(layout, numbers, field, totals.as_mut_slice());
    Ok(Cells::of(totals))
}

/// The totals of a leaf of the next tree, by those of the old leaves in whose place it stands.
fn remapped_leaf(
    alloc: Global,
    layout: &Layout,
    at: &Loc,
    origin: &Origin,
    field: &[Cells],
) -> Result<Cells, NoMemory>
    requires { CanTake layout.now field.now origin.now }
    ensures { IfOk result (λ list. IsTaken layout.now field.now at.now origin.now list) }
{
    match origin {
        Origin::Leaf(leaf) => Cells::from_slice(alloc, field[*leaf as usize].as_slice()),
        Origin::Parent(leaf) => child_shares(alloc, layout, at, field[*leaf as usize].as_slice()),
        Origin::Children(numbers) => sums(alloc, layout, numbers, field),
    }
}

/// The totals of a field on the next tree.
fn remapped_field(
    alloc: Global,
    layout: &Layout,
    next: &Tree,
    origins: &[Origin],
    field: &[Cells],
) -> Result<FieldTotals, NoMemory>
    requires count { length origins.now ≡ length (leaves next.now) }
    requires lists { (k : ℕ) (o : Origin) → k < length origins.now
        → CanTake layout.now field.now (slice_index_or origins.now k o) }
    ensures { IfOk result (λ lists. AreTaken layout.now field.now (leaves next.now) origins.now lists) }
{
    let mut lists = FieldTotals::new(alloc);
    for leaf in 0..next.len() {
        let origin = &origins[leaf as usize];
        let totals = remapped_leaf(alloc, layout, &next.leaf_at(leaf), origin, field)?;
        lists.push(totals)?;
    }
    Ok(lists)
}

/// The totals on the next tree, by field and leaf. Each leaf differs by at most one level from the old leaves in its
/// place.
///
/// A leaf that stays has its totals, one whose parent was a leaf the shares of the parent's, and one whose children
/// were leaves the sums of theirs. The old lists are as they were, also where there is no memory for new ones.
pub fn remap(
    alloc: Global,
    problem: &Problem,
    old: &Tree,
    next: &Tree,
    layout: &Layout,
    lists: &[FieldTotals],
) -> Result<Vec<FieldTotals>, NoMemory>
    requires mesh { IsMeshIn (settings_of problem.now) old.now layout.now lists.now }
    requires shape { next.now.shape ≡ problem.now.shape }
    requires near { IsNear problem.now.shape (is_inner_of old.now) (is_inner_of next.now) }
    ensures mesh { IfOk result (λ new. AreRemapped (settings_of problem.now) old.now next.now lists.now new.items) }
    ensures lists { IfOk result (λ new. HaveLeafLists (field_count (settings_of problem.now))
        (leaves next.now) new.items) }
{
    let origins = leaf_origins(alloc, old, next)?;
    let mut new = Vec::new(alloc);
    for f in 0..lists.len() {
        let field = lists[f].as_slice();
        new.push(remapped_field(alloc, layout, next, origins.as_slice(), field)?)?;
    }
    Ok(new)
}
