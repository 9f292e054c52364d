//! Flux correction between the leaves of a mesh.

ghost use Rattle.std.specs.Prelude.{◌≡◌, ◌≢◌, ◌<◌, ◌≤◌, ◌+◌, ◌^◌, Bool, not, ℕ, OnOk, Some, length, slice_get};
ghost use Rattle.morton_order.specs.declared.space.Loc.{Loc};
ghost use Rattle.block_tree.specs.Blocks.{leaves};
ghost use Rattle.block_geometry.specs.Contents.{HasPairs};
ghost use Rattle.block_layout.specs.Faces.{face_count};
ghost use Rattle.block_layout.specs.Indices.{count_of};
ghost use Rattle.flux_correct.specs.Boxes.{SumsBelow};
ghost use Rattle.flux_correct.specs.Corrected.{IsCorrected};
ghost use Rattle.flux_correct.specs.Sums.{coarse_extents};
ghost use Rattle.dense_mesh.specs.Ghosts.{list_at};
ghost use Rattle.dense_stage.specs.Blocks.{FieldMesh, HasSidePairs, HaveOwn, HavePairs, IsSoundMesh, KeepPairs, block_in};
ghost use Rattle.dense_stage.specs.Faces.{AreFaceLists};
ghost use Rattle.dense_stage.specs.Parts.{IsPutTo};

use crate::face_lists::FaceLists;
use block_layout::Layout;
use block_tree::{Behind, Tree};
use cell_lists::{Cells, NoMemory};
use flux_correct::{gather, replace};
use morton_order::Side;
use std::alloc::Global;

/// Puts a flux part in the lists of a leaf.
fn put_part(
    layout: &Layout,
    side: Side,
    half: u32,
    part: &[u64],
    right: &mut Cells,
    left: &mut Cells,
)
    requires axis { side.axis < layout.now.dims }
    requires half { half < 4 }
    requires part { length part.now ≡ count_of (coarse_extents layout.now side.axis)
        + count_of (coarse_extents layout.now side.axis) }
    requires right_list { length right.old ≡ face_count layout.now }
    requires left_list { length left.old ≡ face_count layout.now }
    ensures rights { IsCorrected layout.now side.axis side.high half 0 part.now right.old right.new }
    ensures lefts { IsCorrected layout.now side.axis side.high half
        (count_of (coarse_extents layout.now side.axis)) part.now left.old left.new }
    ensures right_size { length right.new ≡ face_count layout.now }
    ensures left_size { length left.new ≡ face_count layout.now }
{
    replace(
        layout,
        side,
        half,
        part,
        right.as_mut_slice(),
        left.as_mut_slice(),
    );
}

/// Puts what passes the faces of a finer leaf, summed, in the place of what passes the faces of a leaf that it covers.
fn correct_part(
    alloc: Global,
    layout: &Layout,
    leaf: u32,
    side: Side,
    half: u32,
    from: u32,
    faces: &mut FaceLists,
) -> Result<(), NoMemory>
    requires leaf { leaf < length faces.old.right.items }
    requires from { from < length faces.old.right.items }
    requires axis { side.axis < layout.now.dims }
    requires half { half < 4 }
    requires faces { AreFaceLists layout.now (length faces.old.right.items) faces.old }
    requires rights { SumsBelow (2 ^ 64) layout.now side.axis (not side.high) (list_at faces.old.right.items from) }
    requires lefts { SumsBelow (2 ^ 64) layout.now side.axis (not side.high) (list_at faces.old.left.items from) }
    ensures faces { AreFaceLists layout.now (length faces.old.right.items) faces.new }
    ensures put { OnOk result (IsPutTo layout.now side.axis side.high half from leaf faces.old faces.new) }
{
    let back = Side {
        axis: side.axis,
        high: !side.high,
    };
    let sender = from as usize;
    let part = gather(
        alloc,
        layout,
        back,
        faces.right[sender].as_slice(),
        faces.left[sender].as_slice(),
    )?;
    put_part(
        layout,
        side,
        half,
        part.as_slice(),
        &mut faces.right[leaf as usize],
        &mut faces.left[leaf as usize],
    );
    Ok(())
}

/// Corrects what passes the faces of a leaf at one side, if finer leaves stand behind it.
fn correct_side(
    alloc: Global,
    tree: &Tree,
    layout: &Layout,
    leaf: u32,
    side: Side,
    faces: &mut FaceLists,
) -> Result<(), NoMemory>
    ghost x: { FieldMesh }
    requires mesh { IsSoundMesh tree.now layout.now x }
    requires leaf { leaf < length (leaves tree.now) }
    requires axis { side.axis < layout.now.dims }
    requires faces { AreFaceLists layout.now (length (leaves tree.now)) faces.old }
    requires own { HaveOwn tree.now layout.now x faces.old }
    ensures faces { AreFaceLists layout.now (length (leaves tree.now)) faces.new }
    ensures kept { OnOk result (KeepPairs tree.now layout.now x faces.old faces.new) }
    ensures done { OnOk result ((l : Loc) → slice_get (leaves tree.now) leaf ≡ Some l
        → HasSidePairs (block_in tree.now layout.now x l) side.axis side.high (list_at faces.new.right.items leaf)
        (list_at faces.new.left.items leaf)) }
{
    let Behind::Fine(finer) = tree.behind(leaf, side) else {
        return Ok(());
    };
    for half in 0..finer.len() {
        if let Some(from) = finer.get(half) {
            correct_part(alloc, layout, leaf, side, half as u32, from, faces)?;
        }
    }
    Ok(())
}

/// Corrects what passes the faces of a leaf at all sides.
fn correct_leaf(
    alloc: Global,
    tree: &Tree,
    layout: &Layout,
    leaf: u32,
    faces: &mut FaceLists,
) -> Result<(), NoMemory>
    ghost x: { FieldMesh }
    requires mesh { IsSoundMesh tree.now layout.now x }
    requires leaf { leaf < length (leaves tree.now) }
    requires faces { AreFaceLists layout.now (length (leaves tree.now)) faces.old }
    requires own { HaveOwn tree.now layout.now x faces.old }
    ensures faces { AreFaceLists layout.now (length (leaves tree.now)) faces.new }
    ensures kept { OnOk result (KeepPairs tree.now layout.now x faces.old faces.new) }
    ensures done { OnOk result ((l : Loc) → slice_get (leaves tree.now) leaf ≡ Some l
        → HasPairs (block_in tree.now layout.now x l) (list_at faces.new.right.items leaf)
        (list_at faces.new.left.items leaf)) }
{
    for axis in 0..layout.dims {
        let low = Side { axis, high: false };
        correct_side(alloc, tree, layout, leaf, low, faces)?;
        let high = Side { axis, high: true };
        correct_side(alloc, tree, layout, leaf, high, faces)?;
    }
    Ok(())
}

/// Corrects what passes the faces of all leaves. NoMemory may come at any part.
pub(crate) fn correct(
    alloc: Global,
    tree: &Tree,
    layout: &Layout,
    faces: &mut FaceLists,
) -> Result<(), NoMemory>
    ghost x: { FieldMesh }
    requires mesh { IsSoundMesh tree.now layout.now x }
    requires faces { AreFaceLists layout.now (length (leaves tree.now)) faces.old }
    requires own { HaveOwn tree.now layout.now x faces.old }
    ensures faces { AreFaceLists layout.now (length (leaves tree.now)) faces.new }
    ensures pairs { OnOk result (HavePairs tree.now layout.now x faces.new) }
{
    for leaf in 0..tree.len() {
        correct_leaf(alloc, tree, layout, leaf, faces)?;
    }
    Ok(())
}
