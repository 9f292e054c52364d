//! One block, and a stage of it.

ghost use Rattle.std.specs.Prelude.{◌≡◌, ◌<◌, ◌≤◌, ◌^◌, All, IsTrue, length};
ghost use Rattle.block_layout.specs.Layouts.{len};
ghost use Rattle.block_layout.specs.Faces.{face_count};
ghost use Rattle.kernel_bench.specs.Fitting.{FitSlopes};
ghost use Rattle.kernel_bench.specs.Small.{HasSmall};
ghost use Rattle.upwind_fluxes.specs.Multipliers.{AreOf};
ghost use Rattle.upwind_fluxes.specs.Rates.{AreProper};

use crate::case::{Bits, Kernel};
use block_layout::Layout;
use fused_stage::stage;
use mesh_num::NoMemory;
use slope_kernel::slope_fluxes_by;
use std::alloc::Global;
use transport_kernel::{LevelRates, Multipliers, fluxes_by, update};

const OPEN: [bool; 6] = [false; 6];

/// The totals of a block, and those that stages make: the fused kernel writes them anew from the first ones each time,
/// the others change them in place.
#[derive(Drop)]
pub(crate) struct Block {
    pub(crate) cells: Vec<u64>,
    pub(crate) next: Vec<u64>,
}

/// Room for what passes the faces of a block.
#[derive(Drop)]
pub(crate) struct Faces {
    right: Vec<u64>,
    left: Vec<u64>,
}

impl Faces {
    pub(crate) fn new(alloc: Global, layout: &Layout) -> Result<Faces, NoMemory> {
        let right = Vec::from_elem(alloc, 0u64, layout.face_count())?;
        let left = Vec::from_elem(alloc, 0u64, layout.face_count())?;
        Ok(Faces { right, left })
    }
}

impl Block {
    /// A block of totals that jump about, ghosts too.
    pub(crate) fn new(
        alloc: Global,
        layout: &Layout,
        bits: Bits,
        number: u64,
    ) -> Result<Block, NoMemory> {
        let size = layout.len();
        let mut cells = Vec::with_capacity(alloc, size)?;
        for i in 0..size as u64 {
            cells.push(bits.total_of(i.wrapping_mul(977).wrapping_add(number)))?;
        }
        let next = Vec::from_slice(alloc, cells.as_slice())?;
        Ok(Block { cells, next })
    }
}

/// Whether all totals are below 2^62.
fn are_small(totals: &[u64]) -> bool
    ensures { IsTrue result → All (λ t. t < 2 ^ 62) totals.now }
{
    let mut bits = 0u64;
    for total in totals {
        bits |= *total;
    }
    bits < 1 << 62
}

/// A stage by face lists of the first order.
fn by_lists(
    layout: &Layout,
    rates: &LevelRates,
    multipliers: &Multipliers,
    closed: &[bool; 6],
    cells: &mut [u64],
    right: &mut [u64],
    left: &mut [u64],
)
    requires cell_list { length cells.old ≡ len layout.now }
    requires right_list { length right.old ≡ face_count layout.now }
    requires left_list { length left.old ≡ face_count layout.now }
    requires proper { AreProper rates.now }
    requires of_rates { AreOf rates.now multipliers.now }
    requires fit { FitSlopes layout.now.dims rates.now }
    requires small { All (λ t. t < 2 ^ 62) cells.old }
{
    fluxes_by(layout, rates, multipliers, closed, cells, right, left);
    update(layout, cells, right, left);
}

/// A stage by face lists of the second order.
fn by_slopes(
    layout: &Layout,
    rates: &LevelRates,
    multipliers: &Multipliers,
    closed: &[bool; 6],
    cells: &mut [u64],
    right: &mut [u64],
    left: &mut [u64],
)
    requires cell_list { length cells.old ≡ len layout.now }
    requires right_list { length right.old ≡ face_count layout.now }
    requires left_list { length left.old ≡ face_count layout.now }
    requires proper { AreProper rates.now }
    requires of_rates { AreOf rates.now multipliers.now }
    requires fit { FitSlopes layout.now.dims rates.now }
    requires small { All (λ t. t < 2 ^ 62) cells.old }
{
    slope_fluxes_by(layout, rates, multipliers, closed, cells, right, left);
    update(layout, cells, right, left);
}

/// A stage by the fused kernel.
fn by_fused(
    layout: &Layout,
    rates: &LevelRates,
    multipliers: &Multipliers,
    closed: &[bool; 6],
    cells: &[u64],
    next: &mut [u64],
)
    requires cell_list { length cells.now ≡ len layout.now }
    requires new_list { length next.old ≡ len layout.now }
    requires proper { AreProper rates.now }
    requires of_rates { AreOf rates.now multipliers.now }
    requires fit { FitSlopes layout.now.dims rates.now }
    requires small { All (λ t. t < 2 ^ 62) cells.now }
{
    stage(layout, rates, multipliers, closed, cells, next);
}

/// Whether all totals of a block are below 2^62.
pub(crate) fn has_small(block: &Block) -> bool
    ensures { IsTrue result → HasSmall block.now }
{
    are_small(block.cells.as_slice()) && are_small(block.next.as_slice())
}

/// A stage of a block by a kernel; nothing where its lists do not fit.
pub(crate) fn make_stage(
    kernel: Kernel,
    layout: &Layout,
    rates: &LevelRates,
    multipliers: &Multipliers,
    block: &mut Block,
    faces: &mut Faces,
)
    requires proper { AreProper rates.now }
    requires of_rates { AreOf rates.now multipliers.now }
    requires fit { FitSlopes layout.now.dims rates.now }
    requires small { HasSmall block.old }
{
    let size = layout.len();
    let count = layout.face_count();
    if block.cells.len() != size || block.next.len() != size {
        return;
    }
    if faces.right.len() != count || faces.left.len() != count {
        return;
    }
    if kernel == Kernel::Fused {
        let cells = block.cells.as_slice();
        let next = block.next.as_mut_slice();
        by_fused(layout, rates, multipliers, &OPEN, cells, next);
        return;
    }
    let cells = block.next.as_mut_slice();
    let right = faces.right.as_mut_slice();
    let left = faces.left.as_mut_slice();
    match kernel {
        Kernel::Slopes => by_slopes(layout, rates, multipliers, &OPEN, cells, right, left),
        _ => by_lists(layout, rates, multipliers, &OPEN, cells, right, left),
    }
}
