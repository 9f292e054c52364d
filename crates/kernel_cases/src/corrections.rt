//! What passes the faces of a block that has finer ones behind it.

ghost use Rattle.upwind_fluxes.specs.Rates.{AreProper};

use crate::letters::{Places, facing, receive};
use crate::small::{are_small, listed};
use block_layout::Layout;
use flux_correct::{gather, replace};
use ghost_buffers::How;
use mesh_num::NoMemory;
use morton_order::Side;
use std::alloc::Global;
use transport_kernel::{LevelRates, fluxes};

/// The part of a side that a finer block covers, and what passes its faces to the right and to the left.
pub type Passed<'a> = (u32, Places<'a>, Places<'a>);

/// The side that a finer block is behind, the part of it that it covers, and its cells that are not empty.
pub type Finer<'a> = (Side, u32, Places<'a>);

/// What passes all faces of a block, to the right and to the left.
#[derive(Drop)]
struct Pairs {
    right: Vec<u64>,
    left: Vec<u64>,
}

impl Pairs {
    /// Those at some places of the lists; through all other faces nothing passes.
    fn listed(
        alloc: Global,
        layout: &Layout,
        right: Places,
        left: Places,
    ) -> Result<Pairs, NoMemory> {
        let right = listed(alloc, layout.face_count(), right)?;
        let left = listed(alloc, layout.face_count(), left)?;
        Ok(Pairs { right, left })
    }

    /// Makes them those of cells with ghosts; answers whether the lists are those of a block, and the totals are small.
    fn pass(&mut self, layout: &Layout, rates: &LevelRates, cells: &[u64]) -> bool
        requires { AreProper rates.now }
    {
        let size = layout.face_count();
        if self.right.len() != size || self.left.len() != size {
            return false;
        }
        if cells.len() != layout.len() || !are_small(cells) {
            return false;
        }
        let right = self.right.as_mut_slice();
        let left = self.left.as_mut_slice();
        fluxes(layout, rates, [false; 6], cells, right, left);
        true
    }

    /// Puts the sums of what passes the faces of a finer block in the place of what passed a part of a side; answers
    /// whether the lists are those of blocks, and the numbers are small.
    fn correct(
        &mut self,
        alloc: Global,
        layout: &Layout,
        side: Side,
        half: u32,
        finer: &Pairs,
    ) -> Result<bool, NoMemory> {
        let right = finer.right.as_slice();
        let left = finer.left.as_slice();
        let into_right = self.right.as_mut_slice();
        let into_left = self.left.as_mut_slice();
        correct_lists(
            alloc, layout, side, half, right, left, into_right, into_left,
        )
    }

    fn are(&self, others: &Pairs) -> bool {
        self.right.as_slice() == others.right.as_slice()
            && self.left.as_slice() == others.left.as_slice()
    }
}

/// Puts the sums of a finer block's lists in those of a coarser one; answers whether they are such lists, and the
/// numbers small.
fn correct_lists(
    alloc: Global,
    layout: &Layout,
    side: Side,
    half: u32,
    right: &[u64],
    left: &[u64],
    into_right: &mut [u64],
    into_left: &mut [u64],
) -> Result<bool, NoMemory> {
    let size = layout.face_count();
    if side.axis >= layout.dims || half > 3 {
        return Ok(false);
    }
    if right.len() != size || !are_small(right) {
        return Ok(false);
    }
    if left.len() != size || !are_small(left) {
        return Ok(false);
    }
    if into_right.len() != size || into_left.len() != size {
        return Ok(false);
    }
    let part = gather(alloc, layout, facing(side), right, left)?;
    replace(layout, side, half, part.as_slice(), into_right, into_left);
    Ok(true)
}

/// Puts in their place what passes the finer blocks behind a side.
fn replace_all(
    alloc: Global,
    layout: &Layout,
    side: Side,
    finer: &[Passed],
    pairs: &mut Pairs,
) -> Result<bool, NoMemory> {
    for (half, right, left) in finer {
        let passed = Pairs::listed(alloc, layout, right, left)?;
        if !pairs.correct(alloc, layout, side, *half, &passed)? {
            return Ok(false);
        }
    }
    Ok(true)
}

/// Whether what passes the faces of a block, to the right and to the left, becomes this, once the sums of finer blocks
/// behind a side are in its place.
pub fn replaced(
    alloc: Global,
    layout: &Layout,
    side: Side,
    finer: &[Passed],
    before: (Places, Places),
    after: (Places, Places),
) -> Result<bool, NoMemory> {
    let mut pairs = Pairs::listed(alloc, layout, before.0, before.1)?;
    let fit = replace_all(alloc, layout, side, finer, &mut pairs)?;
    let expected = Pairs::listed(alloc, layout, after.0, after.1)?;
    Ok(fit && pairs.are(&expected))
}

/// Puts in its place what passes a finer block behind a side of a block with these cells, which gives it its ghosts
/// there.
fn correct_by(
    alloc: Global,
    layout: &Layout,
    rates: &LevelRates,
    cells: &[u64],
    finer: &Finer,
    pairs: &mut Pairs,
) -> Result<bool, NoMemory>
    requires { AreProper rates.now }
{
    let (side, half, places) = finer;
    let mut own = listed(alloc, layout.len(), places)?;
    let into = own.as_mut_slice();
    let fit = receive(
        alloc,
        layout,
        facing(*side),
        How::Coarser,
        *half,
        cells,
        into,
    )?;
    let mut passed = Pairs::listed(alloc, layout, &[], &[])?;
    if !fit || !passed.pass(layout, rates, own.as_slice()) {
        return Ok(false);
    }
    pairs.correct(alloc, layout, *side, *half, &passed)
}

/// The same for all finer blocks.
fn correct_all(
    alloc: Global,
    layout: &Layout,
    rates: &LevelRates,
    cells: &[u64],
    finer: &[Finer],
    pairs: &mut Pairs,
) -> Result<bool, NoMemory>
    requires { AreProper rates.now }
{
    for one in finer {
        if !correct_by(alloc, layout, rates, cells, one, pairs)? {
            return Ok(false);
        }
    }
    Ok(true)
}

/// The rates of a level, and those of the next finer one.
#[derive(Clone, Copy)]
pub struct TwoLevels {
    pub own: LevelRates,
    pub finer: LevelRates,
}

/// Whether this passes the faces of a block with cells at some places where finer blocks behind its sides have such
/// cells.
pub fn corrected(
    alloc: Global,
    layout: &Layout,
    rates: &TwoLevels,
    cells: Places,
    finer: &[Finer],
    passed: (Places, Places),
) -> Result<bool, NoMemory>
    requires own { AreProper rates.now.own }
    requires finer { AreProper rates.now.finer }
{
    let cells = listed(alloc, layout.len(), cells)?;
    let mut pairs = Pairs::listed(alloc, layout, &[], &[])?;
    if !pairs.pass(layout, &rates.own, cells.as_slice()) {
        return Ok(false);
    }
    let cells = cells.as_slice();
    let fit = correct_all(alloc, layout, &rates.finer, cells, finer, &mut pairs)?;
    let expected = Pairs::listed(alloc, layout, passed.0, passed.1)?;
    Ok(fit && pairs.are(&expected))
}
