//! Rows of shares of coarse cells.

ghost use Rattle.std.specs.Prelude.{◌≡◌, ◌+◌, ◌*◌, ◌/◌, ◌%◌, ◌<◌, ◌≤◌, ◌^◌, ℕ, [], ◌∷◌, length, slice_index};
ghost use Rattle.mesh_num.specs.Share.{share as share_of};
ghost use Rattle.morton_order.specs.Space.{factor};
ghost use Rattle.restrict_prolong.specs.Refined.{factors as factors_of, refined};
ghost use Rattle.restrict_prolong.specs.Indices.{AreIndices};

use block_regions::{BoxRows, row_start};
use cell_boxes::BoxIn;

/// The shares of the fine cells in a box of coarse ones.
#[derive(Clone, Copy)]
pub(crate) struct Shares {
    pub(crate) dims: u32,
    /// The coarse cells along each axis.
    pub(crate) coarse: [usize; 3],
    pub(crate) from_box: BoxIn,
}

/// The share of part `j` among `2^dims`.
fn share_by_shift(q: u64, dims: u32, j: u64) -> u64
    requires dims { dims ≤ 3 }
    requires part { j < 2 ^ dims }
    ensures { result ≡ share_of q (2 ^ dims) j }
{
    let even = q >> dims;
    let rest = q - (even << dims);
    if j < rest { even + 1 } else { even }
}

/// Writes the shares of the parts `j` and `j + 1` of each number side by side.
fn spread_row(from: &[u64], dims: u32, j: u64, into: &mut [u64])
    requires dims { dims ≤ 3 }
    requires part { j + 1 < 2 ^ dims }
    requires lengths { length into.old ≡ 2 * length from.now }
    ensures low { (x : ℕ) → x < length from.now
        → slice_index into.new (2 * x) ≡ share_of (slice_index from.now x) (2 ^ dims) j }
    ensures high { (x : ℕ) → x < length from.now
        → slice_index into.new (2 * x + 1) ≡ share_of (slice_index from.now x) (2 ^ dims) (j + 1) }
{
    for x in 0..from.len() {
        into[2 * x] = share_by_shift(from[x], dims, j);
        into[2 * x + 1] = share_by_shift(from[x], dims, j + 1);
    }
}

/// Along an axis that may be in use, the coarse coordinate of a fine one, and which half of it that is.
fn halved(dims: u32, axis: u32, fine: usize) -> (usize, u64)
    ensures coarse { result.0 ≡ fine / factor dims axis }
    ensures half { result.1 ≡ fine % factor dims axis }
{
    if axis < dims {
        let coarse = fine >> 1;
        (coarse, (fine - 2 * coarse) as u64)
    } else {
        (fine, 0)
    }
}

/// How many fine cells there are along an axis in so many coarse ones.
fn refined_along(dims: u32, axis: u32, coarse: usize) -> usize
    requires { factor dims axis * coarse < 2 ^ 64 }
    ensures { result ≡ factor dims axis * coarse }
{
    if axis < dims { 2 * coarse } else { coarse }
}

/// The fine cells along each axis in so many coarse ones.
pub(crate) fn refined_extents(dims: u32, extents: [usize; 3]) -> [usize; 3]
    requires { AreIndices (refined (factors_of dims) extents) }
    ensures { result ≡ refined (factors_of dims) extents }
{
    [
        refined_along(dims, 0, extents[0]),
        refined_along(dims, 1, extents[1]),
        refined_along(dims, 2, extents[2]),
    ]
}

impl BoxRows for Shares {
    ghost use Rattle.restrict_prolong.specs.Refined.{factors, share_in};
    ghost use Rattle.restrict_prolong.specs.Boxes.{at_box};
    ghost use Rattle.restrict_prolong.specs.Rows.{IsShareRow};

    ghost gives = { λ s from x row plane. share_in (factors s.dims) (at_box from s.from_box) (x ∷ row ∷ plane ∷ []) };

    ghost asks = { λ s from len row plane. IsShareRow s from len row plane };

    fn write_row(&self, from: &[u64], row: usize, plane: usize, into: &mut [u64]) {
        let (y, b2) = halved(self.dims, 1, row);
        let (z, b3) = halved(self.dims, 2, plane);
        let at = row_start(&self.coarse, &self.from_box, from.len(), y, z);
        spread_row(
            &from[at..at + self.coarse[0]],
            self.dims,
            2 * b2 + 4 * b3,
            into,
        );
    }
}
