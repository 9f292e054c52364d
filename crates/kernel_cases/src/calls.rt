//! The kernels on lists of small numbers; each call answers whether the kernel made of them what is expected.

ghost use Rattle.std.specs.Prelude.{◌≡◌, ◌<◌, ◌≤◌, ◌^◌, All, length, slice_index};
ghost use Rattle.block_layout.specs.Indices.{count_of};
ghost use Rattle.restrict_prolong.specs.Refined.{factors as factors_of, refined};
ghost use Rattle.upwind_fluxes.specs.Rates.{AreProper};
ghost use Rattle.fused_stage.specs.Stage.{FitTogether};

use crate::small::{are_small, listed};
use block_layout::Layout;
use fused_stage::{LevelRates, Multipliers, stage};
use mesh_num::NoMemory;
use restrict_prolong::{factors, prolong, restrict};
use slope_kernel::slope_fluxes;
use std::alloc::Global;

/// How many coarse cells a box of at most eight along each axis has.
fn coarse_count(n: [u32; 3]) -> usize
    requires along1 { slice_index n 0 ≤ 8 }
    requires along2 { slice_index n 1 ≤ 8 }
    requires along3 { slice_index n 2 ≤ 8 }
    ensures { result ≡ count_of n }
{
    n[0] as usize * n[1] as usize * n[2] as usize
}

/// How many fine cells lie in them.
fn fine_count(dims: u32, n: [u32; 3]) -> usize
    requires least { 1 ≤ dims }
    requires most { dims ≤ 3 }
    requires along1 { slice_index n 0 ≤ 8 }
    requires along2 { slice_index n 1 ≤ 8 }
    requires along3 { slice_index n 2 ≤ 8 }
    ensures { result ≡ count_of (refined (factors_of dims) n) }
{
    let each = factors(dims);
    (each[0] * n[0] as usize) * (each[1] * n[1] as usize) * (each[2] * n[2] as usize)
}

/// Whether the shares of coarse cells are these fine ones.
pub fn prolonged(
    alloc: Global,
    dims: u32,
    n: [u32; 3],
    coarse: &[u64],
    fine: &[u64],
) -> Result<bool, NoMemory> {
    if dims < 1 || dims > 3 || n[0] > 8 || n[1] > 8 || n[2] > 8 {
        return Ok(false);
    }
    if coarse.len() != coarse_count(n) {
        return Ok(false);
    }
    let size = fine_count(dims, n);
    let mut into = Vec::from_elem(alloc, 9u64, size)?;
    prolong(dims, n, coarse, into.as_mut_slice());
    Ok(into.as_slice() == fine)
}

/// Whether the sums of fine cells are these coarse ones.
pub fn restricted(
    alloc: Global,
    dims: u32,
    n: [u32; 3],
    fine: &[u64],
    coarse: &[u64],
) -> Result<bool, NoMemory> {
    if dims < 1 || dims > 3 || n[0] > 8 || n[1] > 8 || n[2] > 8 {
        return Ok(false);
    }
    if fine.len() != fine_count(dims, n) || !are_small(fine) {
        return Ok(false);
    }
    let mut into = Vec::from_elem(alloc, 9u64, coarse_count(n))?;
    restrict(dims, n, fine, into.as_mut_slice());
    Ok(into.as_slice() == coarse)
}

/// Whether a stage without face lists makes of cells at some places, all others empty, those at other places.
pub fn fused(
    alloc: Global,
    layout: &Layout,
    rates: &LevelRates,
    closed: [bool; 6],
    before: &[(usize, u64)],
    after: &[(usize, u64)],
) -> Result<bool, NoMemory>
    requires proper { AreProper rates.now }
    requires fit { FitTogether layout.now.dims rates.now }
{
    let size = layout.len();
    let list = listed(alloc, size, before)?;
    let mut into = Vec::from_elem(alloc, 0u64, size)?;
    let cells = list.as_slice();
    if cells.len() != size || !are_small(cells) {
        return Ok(false);
    }
    let multipliers = Multipliers::of(rates);
    stage(
        layout,
        rates,
        &multipliers,
        &closed,
        cells,
        into.as_mut_slice(),
    );
    let expected = listed(alloc, size, after)?;
    Ok(into.as_slice() == expected.as_slice())
}

/// Whether these pass the faces of a row of cells by the second order.
pub fn slopes(
    layout: &Layout,
    rates: &LevelRates,
    closed: [bool; 6],
    cells: &[u64; 8],
    right: &[u64; 5],
    left: &[u64; 5],
) -> bool
    requires proper { AreProper rates.now }
{
    let mut rights = [9; 5];
    let mut lefts = [9; 5];
    if layout.len() != 8 || layout.face_count() != 5 || !are_small(cells) {
        return false;
    }
    slope_fluxes(layout, rates, closed, cells, &mut rights, &mut lefts);
    rights == *right && lefts == *left
}
