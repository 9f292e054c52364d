//! Reactions in a block of small totals; each call answers whether they leave what is expected.

ghost use Rattle.std.specs.Prelude.{◌≡◌, ◌<◌, ◌^◌, ◌∷◌, ◌++◌, ℕ, [], All, IfOk, length, sum};
ghost use Rattle.block_layout.specs.Layouts.{interior_len, len};
ghost use Rattle.field_bufs.specs.Buffers.{HasSizes, zeros};
ghost use Rattle.package_fields.specs.Flow.{IsBelow, no_flow};
ghost use Rattle.react_kernel.specs.Blocks.{AreOf, inner_place, totals_at};

use crate::small::are_small;
use block_layout::Layout;
use field_bufs::{Bufs, Cells, FieldBuf};
use mesh_num::NoMemory;
use package_fields::{CellKernel, Flow, Flows};
use problem_set::Reaction;
use react_kernel::{ReactKernel, react_block};
use std::alloc::Global;

/// The kernel that moves a tenth of the first field to the second.
fn tenth(alloc: Global) -> Result<ReactKernel, NoMemory>
    ensures { IfOk result (λ kernel. ⟦<ReactKernel as CellKernel>⟧.fields kernel ≡ 2) }
{
    let reaction = Reaction {
        from: 0,
        to: 1,
        num: 1,
        den: 10,
    };
    ReactKernel::new(alloc, &[reaction], 2)
}

/// Two flows with nothing in them.
fn no_flows(alloc: Global) -> Result<Flows, NoMemory>
    ensures { IfOk result (λ flows. flows ≡ no_flow ∷ no_flow ∷ []) }
{
    let flows = Flows::from_slice(alloc, &[Flow::default(); 2])?;
    Ok(flows)
}

/// The buffer of a field with these totals.
fn buffer(alloc: Global, layout: &Layout, field: u32, totals: &[u64]) -> Result<FieldBuf, NoMemory>
    requires { length totals.now ≡ len layout.now }
    ensures block { IfOk result (λ buf. buf.block ≡ 0) }
    ensures field { IfOk result (λ buf. buf.field ≡ field) }
    ensures cells { IfOk result (λ buf. buf.cells ≡ totals.now) }
    ensures sizes { IfOk result (HasSizes layout.now) }
{
    let mut buf = FieldBuf::zeros(alloc, layout, 0, field, 0)?;
    buf.cells = Cells::from_slice(alloc, totals)?;
    Ok(buf)
}

/// The buffers of a block with the first field alone.
fn one(alloc: Global, layout: &Layout, first: &[u64]) -> Result<Bufs, NoMemory>
    requires size { length first.now ≡ len layout.now }
    requires small { All (λ t. t < 2 ^ 32) first.now }
    ensures bufs { IfOk result (AreOf layout.now 0 2) }
    ensures small { IfOk result (λ bufs. (place : ℕ) → sum (totals_at bufs 2 place) < 2 ^ 62) }
{
    let mut bufs = Bufs::new(alloc);
    let buf = buffer(alloc, layout, 0, first)?;
    bufs.push(buf)?;
    Ok(bufs)
}

/// The buffers of a block with both fields.
fn both(alloc: Global, layout: &Layout, first: &[u64], second: &[u64]) -> Result<Bufs, NoMemory>
    requires size1 { length first.now ≡ len layout.now }
    requires size2 { length second.now ≡ len layout.now }
    requires small1 { All (λ t. t < 2 ^ 32) first.now }
    requires small2 { All (λ t. t < 2 ^ 32) second.now }
    ensures bufs { IfOk result (AreOf layout.now 0 2) }
    ensures small { IfOk result (λ bufs. (place : ℕ) → sum (totals_at bufs 2 place) < 2 ^ 62) }
{
    let low = buffer(alloc, layout, 0, first)?;
    let high = buffer(alloc, layout, 1, second)?;
    let bufs = pair(alloc, low, high)?;
    Ok(bufs)
}

/// Two buffers.
fn pair(alloc: Global, low: FieldBuf, high: FieldBuf) -> Result<Bufs, NoMemory>
    ensures { IfOk result (λ bufs. bufs ≡ low ∷ high ∷ []) }
{
    let mut bufs = Bufs::new(alloc);
    bufs.push(low)?;
    bufs.push(high)?;
    Ok(bufs)
}

/// Moves a tenth of the first field to the second in each cell of a block, and answers the new buffers.
fn react(
    alloc: Global,
    layout: &Layout,
    bufs: &mut Bufs,
    flows: &mut Flows,
) -> Result<Bufs, NoMemory>
    requires flows { flows.old ≡ no_flow ∷ no_flow ∷ [] }
    requires bufs { AreOf layout.now 0 2 bufs.old }
    requires small { (place : ℕ) → sum (totals_at bufs.old 2 place) < 2 ^ 62 }
{
    let kernel = tenth(alloc)?;
    react_block(alloc, &kernel, layout, 0, 7, bufs, flows)
}

/// What is expected of a block: the totals of the first field, those of the second where it had a buffer before, those
/// of the new buffer of the second where there is one, and what was made of the second.
#[derive(Clone, Copy)]
pub struct Expected<'a> {
    pub first: &'a [u64],
    pub second: &'a [u64],
    pub new: &'a [u64],
    pub made: u128,
}

/// Whether a buffer is one of the first block and a field, with a stamp and these totals.
fn is_of(buf: &FieldBuf, field: u32, stamp: u32, totals: &[u64]) -> bool {
    buf.block == 0 && buf.field == field && buf.stamp == stamp && buf.cells.as_slice() == totals
}

/// Whether there is a buffer of a field with a stamp and these totals at a place, or none where no totals are given.
fn holds(bufs: &[FieldBuf], at: usize, field: u32, stamp: u32, totals: &[u64]) -> bool {
    match bufs.get(at) {
        Some(buf) => is_of(buf, field, stamp, totals),
        None => totals.is_empty(),
    }
}

/// Whether so much of the first field was used to make the second, and nothing else passed.
fn are_of(flows: &[Flow], made: u128) -> bool {
    let used = Flow {
        used: made,
        ..Flow::default()
    };
    let gained = Flow {
        made,
        ..Flow::default()
    };
    flows == [used, gained].as_slice()
}

/// Whether a reaction leaves what is expected of a block with these buffers.
fn leaves(
    alloc: Global,
    layout: &Layout,
    mut bufs: Bufs,
    expected: &Expected,
) -> Result<bool, NoMemory>
    requires bufs { AreOf layout.now 0 2 bufs }
    requires small { (place : ℕ) → sum (totals_at bufs 2 place) < 2 ^ 62 }
{
    let mut flows = no_flows(alloc)?;
    let made = react(alloc, layout, &mut bufs, &mut flows)?;
    Ok(
        holds(bufs.as_slice(), 0, 0, 0, expected.first)
            && holds(bufs.as_slice(), 1, 1, 0, expected.second)
            && holds(made.as_slice(), 0, 1, 7, expected.new)
            && made.len() < 2
            && are_of(flows.as_slice(), expected.made),
    )
}

/// Whether a reaction leaves what is expected of a block that has the first field alone.
pub fn one_reacts(
    alloc: Global,
    layout: &Layout,
    first: &[u64],
    expected: &Expected,
) -> Result<bool, NoMemory> {
    if first.len() != layout.len() || !are_small(first) {
        return Ok(false);
    }
    let bufs = one(alloc, layout, first)?;
    leaves(alloc, layout, bufs, expected)
}

/// Whether a reaction in a block that has the first field alone leaves what is expected of it, or was refused memory
/// and then left no buffers and no flows, or had not begun with them.
fn ends_well(
    alloc: Global,
    layout: &Layout,
    mut bufs: Bufs,
    mut flows: Flows,
    first: &[u64],
    expected: &Expected,
) -> bool
    requires flows { flows ≡ no_flow ∷ no_flow ∷ [] }
    requires bufs { AreOf layout.now 0 2 bufs }
    requires small { (place : ℕ) → sum (totals_at bufs 2 place) < 2 ^ 62 }
{
    match react(alloc, layout, &mut bufs, &mut flows) {
        Ok(made) => {
            holds(bufs.as_slice(), 0, 0, 0, expected.first)
                && holds(made.as_slice(), 0, 1, 7, expected.new)
                && are_of(flows.as_slice(), expected.made)
        }
        Err(_) => {
            (bufs.is_empty() && flows.is_empty())
                || (holds(bufs.as_slice(), 0, 0, 0, first) && are_of(flows.as_slice(), 0))
        }
    }
}

/// Whether a reaction in a block that has the first field alone leaves what is expected of it, or gives up the buffers
/// where memory is refused in its midst.
pub fn one_reacts_or_gives_up(
    alloc: Global,
    layout: &Layout,
    first: &[u64],
    expected: &Expected,
) -> bool {
    if first.len() != layout.len() || !are_small(first) {
        return false;
    }
    let Ok(bufs) = one(alloc, layout, first) else {
        return true;
    };
    match no_flows(alloc) {
        Ok(flows) => ends_well(alloc, layout, bufs, flows, first, expected),
        Err(_) => true,
    }
}

/// Whether a reaction leaves what is expected of a block that has both fields.
pub fn both_react(
    alloc: Global,
    layout: &Layout,
    first: &[u64],
    second: &[u64],
    expected: &Expected,
) -> Result<bool, NoMemory> {
    if first.len() != layout.len() || !are_small(first) {
        return Ok(false);
    }
    if second.len() != layout.len() || !are_small(second) {
        return Ok(false);
    }
    let bufs = both(alloc, layout, first, second)?;
    leaves(alloc, layout, bufs, expected)
}
