//! Boxes that are whole lists.

ghost use Rattle.std.specs.Prelude.{◌≡◌, ◌≤◌, ◌<◌, ◌^◌, ℕ, List, length};
ghost use Rattle.morton_order.specs.Space.{factor};
ghost use Rattle.block_layout.specs.Indices.{IsWithin, count_of};
ghost use Rattle.restrict_prolong.specs.Refined.{at_index, factors as factors_of, prolonged, refined, restricted, sum_in};

use crate::prolongation::prolong_box;
use crate::restriction::restrict_box;
use crate::shares::refined_extents;
use block_regions::whole;

/// How many fine cells lie in a coarse one along an axis.
fn factor_along(dims: u32, axis: u32) -> usize
    ensures { result ≡ factor dims axis }
{
    if axis < dims { 2 } else { 1 }
}

/// How many fine cells lie in a coarse one along each axis: two along one in use.
pub fn factors(dims: u32) -> [usize; 3]
    ensures { result ≡ factors_of dims }
{
    [
        factor_along(dims, 0),
        factor_along(dims, 1),
        factor_along(dims, 2),
    ]
}

/// Writes `n` coarse cells along each axis, x1 fastest, each the sum of the `2^dims` fine cells in it.
pub fn restrict(dims: u32, n: [u32; 3], fine: &[u64], into: &mut [u64])
    requires least { 1 ≤ dims }
    requires most { dims ≤ 3 }
    requires fine { length fine.now ≡ count_of (refined (factors_of dims) n) }
    requires coarse { length into.old ≡ count_of n }
    requires small { (i : List ℕ) → IsWithin n i
        → sum_in (factors_of dims) (at_index (refined (factors_of dims) n) fine.now) i < 2 ^ 64 }
    ensures { into.new ≡ restricted dims n fine.now }
{
    if into.is_empty() {
        return;
    }
    let each = factors(dims);
    let extents = [n[0] as usize, n[1] as usize, n[2] as usize];
    let fine_box = whole(refined_extents(dims, extents));
    let coarse_box = whole(extents);
    restrict_box(each, extents, fine, fine_box, into, coarse_box);
}

/// Writes the fine cells in `n` coarse ones along each axis, x1 fastest, each the share of its coarse cell.
pub fn prolong(dims: u32, n: [u32; 3], coarse: &[u64], into: &mut [u64])
    requires least { 1 ≤ dims }
    requires most { dims ≤ 3 }
    requires coarse { length coarse.now ≡ count_of n }
    requires fine { length into.old ≡ count_of (refined (factors_of dims) n) }
    ensures { into.new ≡ prolonged dims n coarse.now }
{
    if into.is_empty() {
        return;
    }
    let extents = [n[0] as usize, n[1] as usize, n[2] as usize];
    let fine_box = whole(refined_extents(dims, extents));
    let coarse_box = whole(extents);
    prolong_box(dims, extents, coarse, coarse_box, into, fine_box);
}
