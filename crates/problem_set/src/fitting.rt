//! The opening sum of all totals, and all that may come in during the run.

ghost use Rattle.std.specs.Prelude.{◌≡◌, ◌≤◌, ◌<◌, ◌*◌, ◌^◌, Some, length, slice_get, slice_index, All, sum_by};
ghost use Rattle.std.specs.List.{slice_index_or, range_with_len};
ghost use Rattle.mesh_settings.specs.Mesh.{cells_of, is_inflow};
ghost use Rattle.problem_set.specs.Rates.{face_cells, face_inflow, field_inflow, stage_inflow, span, box_total};
ghost use Rattle.mesh_settings.specs.Sound.{IsSize, IsFaces};
ghost use Rattle.deck_entries.specs.SoundEntries.{IsMoves, IsBox};
ghost use Rattle.mesh_settings.specs.Limits.{greatest_size, most_boxes, most_fields};

use crate::rates::{field_at, moves_at};
use deck_entries::{Moves, StartBox};
use mesh_settings::{FaceKind, Faces};
use package_fields::{Field, Flag, has_flag};

/// The cells of a part of the mesh along an axis, both ends included.
fn span(lo: [u32; 3], hi: [u32; 3], axis: u32) -> u128
    requires axis { axis < 3 }
    requires lo { length lo ≡ 3 }
    requires hi { length hi ≡ 3 }
    requires ordered { slice_index lo axis ≤ slice_index hi axis }
    requires within { slice_index hi axis < greatest_size }
    ensures value { result ≡ span lo hi axis }
    ensures most { result ≤ greatest_size }
{
    u128::from(hi[axis as usize] + 1 - lo[axis as usize])
}

/// What a box puts into all its cells.
fn box_total(size: [u32; 3], start: &StartBox, fields: usize) -> u128
    requires size { IsSize size }
    requires few { cells_of size ≤ 2 ^ 34 }
    requires sound { IsBox size fields start.now }
    ensures value { result ≡ box_total start.now }
    ensures most { result ≤ 2 ^ 96 }
{
    let (lo, hi) = (start.lo, start.hi);
    let cells = span(lo, hi, 0) * span(lo, hi, 1) * span(lo, hi, 2);
    cells * u128::from(start.amount)
}

/// What all boxes put into their cells.
pub fn boxes_total(size: [u32; 3], boxes: &[StartBox], fields: usize) -> u128
    requires size { IsSize size }
    requires few_cells { cells_of size ≤ 2 ^ 34 }
    requires few { length boxes.now ≤ most_boxes }
    requires sound { All (IsBox size fields) boxes.now }
    ensures value { result ≡ sum_by box_total boxes.now }
    ensures most { result ≤ 2 ^ 108 }
{
    let mut sum = 0;
    for i in 0..boxes.len() {
        sum += box_total(size, box_at(boxes, i), fields);
    }
    sum
}

/// The box at a place of a list.
fn box_at(boxes: &[StartBox], i: usize) -> &StartBox
    requires { i < length boxes.now }
    ensures { slice_get boxes.now i ≡ Some result.now }
{
    &boxes[i]
}

/// The root cells behind a face that is normal to an axis.
fn face_cells(size: [u32; 3], axis: u32) -> u128
    requires size { IsSize size }
    requires few { cells_of size ≤ 2 ^ 34 }
    requires axis { axis < 3 }
    ensures value { result ≡ face_cells size axis }
    ensures most { result ≤ 2 ^ 34 }
{
    let (across, along) = match axis {
        0 => (size[1], size[2]),
        1 => (size[0], size[2]),
        _ => (size[0], size[1]),
    };
    u128::from(across) * u128::from(along)
}

/// What may come in through a face in a stage.
fn face_inflow(dims: u32, size: [u32; 3], faces: &Faces, moves: &Moves, i: u32) -> u128
    requires size { IsSize size }
    requires few { cells_of size ≤ 2 ^ 34 }
    requires faces { IsFaces faces.now }
    requires moves { IsMoves moves.now }
    requires face { i < 6 }
    ensures value { result ≡ face_inflow dims size faces.now moves.now i }
    ensures most { result ≤ 2 ^ 96 }
{
    if i / 2 < dims && is_inflow_at(faces, i) {
        u128::from(moves.entry[i as usize]) * face_cells(size, i / 2)
    } else {
        0
    }
}

/// Whether the face at a place of the list lets its amount in.
fn is_inflow_at(faces: &Faces, i: u32) -> bool
    requires { i < length faces.now }
    ensures { result ≡ is_inflow (slice_index_or faces.now i FaceKind.Outflow) }
{
    faces.as_slice()[i as usize].is_inflow()
}

/// What may come in of a field in a stage, which needs ghost zones and fluxes.
#[tactic(auto, using(crate::proofs::RateLemmas::sum_range_more))]
fn field_inflow(dims: u32, size: [u32; 3], faces: &Faces, field: &Field, moves: Moves) -> u128
    requires size { IsSize size }
    requires few { cells_of size ≤ 2 ^ 34 }
    requires faces { IsFaces faces.now }
    requires moves { IsMoves moves }
    ensures value { result ≡ field_inflow dims size faces.now field.now moves }
    ensures most { result ≤ 2 ^ 99 }
{
    let flags = field.flags.as_slice();
    if has_flag(flags, Flag::FillGhost) && has_flag(flags, Flag::WithFluxes) {
        faces_inflow(dims, size, faces, &moves)
    } else {
        0
    }
}

/// What may come in through all faces in a stage.
#[tactic(auto, using(crate::proofs::RateLemmas::sum_range_more))]
fn faces_inflow(dims: u32, size: [u32; 3], faces: &Faces, moves: &Moves) -> u128
    requires size { IsSize size }
    requires few { cells_of size ≤ 2 ^ 34 }
    requires faces { IsFaces faces.now }
    requires moves { IsMoves moves.now }
    ensures value { result ≡ sum_by (face_inflow dims size faces.now moves.now) (range_with_len 0 (length faces.now)) }
    ensures most { result ≤ 2 ^ 99 }
{
    let mut sum = 0;
    for i in 0..faces.len() {
        sum += face_inflow(dims, size, faces, moves, i as u32);
    }
    sum
}

/// What may come in of all fields in a stage.
pub fn stage_inflow(
    dims: u32,
    size: [u32; 3],
    faces: &Faces,
    fields: &[Field],
    moves: &[Moves],
) -> u128
    requires size { IsSize size }
    requires few_cells { cells_of size ≤ 2 ^ 34 }
    requires faces { IsFaces faces.now }
    requires few { length fields.now ≤ most_fields }
    requires as_many { length moves.now ≡ length fields.now }
    requires moves { All IsMoves moves.now }
    ensures value { result ≡ stage_inflow dims size faces.now fields.now moves.now }
    ensures most { result ≤ 2 ^ 107 }
{
    let mut sum = 0;
    for i in 0..fields.len() {
        sum += field_inflow(dims, size, faces, field_at(fields, i), moves_at(moves, i));
    }
    sum
}
