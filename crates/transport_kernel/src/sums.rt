//! What passes the faces at one side of a block.

ghost use Rattle.std.specs.Prelude.{◌≡◌, ℕ, ◌+◌, ◌*◌, ◌<◌, ◌≤◌, ◌^◌, [], ◌∷◌, length, slice_index};
ghost use Rattle.block_layout.specs.Faces.{face_count, face_number};
ghost use Rattle.transport_kernel.specs.Passed.{face_at_side, passed_at, side_faces, sum_below};

use crate::boxes::{cell_extents, face_widths};
use block_layout::Layout;
use morton_order::Side;

/// The sum of a row of a list.
fn row_sum(list: &[u64], start: usize, len: usize) -> u128
    requires fits { start + len ≤ length list.now }
    requires short { len ≤ 65 }
    ensures value { result ≡ sum_below len (λ x. slice_index list.now (start + x)) }
    ensures most { result ≤ len * 2 ^ 64 }
{
    let mut sum = 0u128;
    for x in 0..len {
        sum += u128::from(list[start + x]);
    }
    sum
}

/// The sum of rows at equal steps.
fn rows_sum(list: &[u64], start: usize, step: usize, len: usize, count: usize) -> u128
    requires fits { (y : ℕ) → y < count → start + y * step + len ≤ length list.now }
    requires short { len ≤ 65 }
    requires few { count ≤ 65 }
    ensures value { result ≡ sum_below count (λ y. sum_below len (λ x. slice_index list.now (start + y * step + x))) }
    ensures most { result ≤ count * (65 * 2 ^ 64) }
{
    let mut sum = 0u128;
    for y in 0..count {
        sum += row_sum(list, start + y * step, len);
    }
    sum
}

/// The sum of a box, whose planes lie at equal steps too.
fn box_sum(list: &[u64], start: usize, step: usize, plane: usize, extents: [usize; 3]) -> u128
    requires fits { (y z : ℕ) → y < slice_index extents 1 → z < slice_index extents 2
        → start + z * plane + y * step + slice_index extents 0 ≤ length list.now }
    requires some { 1 ≤ slice_index extents 1 }
    requires short { slice_index extents 0 ≤ 65 }
    requires few { slice_index extents 1 ≤ 65 }
    requires planes { slice_index extents 2 ≤ 65 }
    ensures { result ≡ sum_below (slice_index extents 2)
        (λ z. sum_below (slice_index extents 1)
        (λ y. sum_below (slice_index extents 0) (λ x. slice_index list.now (start + z * plane + y * step + x)))) }
{
    let mut sum = 0u128;
    for z in 0..extents[2] {
        sum += rows_sum(list, start + z * plane, step, extents[0], extents[1]);
    }
    sum
}

/// The number of the first face at a side.
fn first_at(layout: &Layout, side: Side) -> usize
    requires { side.axis < layout.now.dims }
    ensures { result ≡ face_number layout.now side.axis (face_at_side layout.now side.axis side.high (0 ∷ 0 ∷ 0 ∷ [])) }
{
    let mut low = [0, 0, 0];
    if side.high {
        low[side.axis as usize] = layout.cells[side.axis as usize];
    }
    layout.face_at(side.axis, low)
}

/// The faces at a side along each axis: one along its own.
fn extents_at(layout: &Layout, axis: u32) -> [usize; 3]
    requires { axis < layout.now.dims }
    ensures { result ≡ side_faces layout.now axis }
{
    let mut extents = cell_extents(layout);
    extents[axis as usize] = 1;
    extents
}

/// The sum of what passes the faces at one side of a block, by the list of one direction. At a face of the domain it
/// is what flows in or out there: at a low side the list to the right gives what flows in, that to the left what flows
/// out, and at a high side the other way round.
///
/// `list` has the faces of x1, then of x2, then of x3, x1 fastest.
pub fn passed(layout: &Layout, side: Side, list: &[u64]) -> u128
    requires axis { side.axis < layout.now.dims }
    requires faces { length list.now ≡ face_count layout.now }
    ensures { result ≡ passed_at layout.now side.axis side.high list.now }
{
    let start = first_at(layout, side);
    let widths = face_widths(layout, side.axis);
    let extents = extents_at(layout, side.axis);
    box_sum(list, start, widths[0], widths[0] * widths[1], extents)
}
