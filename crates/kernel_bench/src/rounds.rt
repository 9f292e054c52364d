//! Rounds of stages of many blocks.

ghost use Rattle.std.specs.Prelude.{◌≤◌, ◌^◌, IsTrue};
ghost use Rattle.kernel_bench.specs.Fitting.{FitSlopes};
ghost use Rattle.kernel_bench.specs.Small.{HaveSmall};
ghost use Rattle.upwind_fluxes.specs.Multipliers.{AreOf};
ghost use Rattle.upwind_fluxes.specs.Rates.{AreProper};

use crate::block::{Block, Faces, has_small, make_stage};
use crate::case::{Case, Kernel};
use crate::exchange::exchange;
use crate::rates::rates_of;
use block_layout::Layout;
use mesh_num::NoMemory;
use std::alloc::Global;
use std::io;
use std::time::{Clock, Instant};
use transport_kernel::{LevelRates, Multipliers};

const BLOCKS: u64 = 16;

/// How many cells are updated in one round, about.
const UPDATES: u64 = 1_000_000;

const ROUNDS: u32 = 100;

/// The blocks of a case.
#[derive(Drop)]
pub(crate) struct Run {
    case: Case,
    layout: Layout,
    blocks: Vec<Block>,
    faces: Faces,
}

/// Whether the totals of all blocks are below 2^62.
fn have_small(blocks: &[Block]) -> bool
    ensures { IsTrue result → HaveSmall blocks.now }
{
    for block in blocks {
        if !has_small(block) {
            return false;
        }
    }
    true
}

/// A stage of all blocks.
fn make_stages(
    kernel: Kernel,
    layout: &Layout,
    rates: &LevelRates,
    multipliers: &Multipliers,
    blocks: &mut [Block],
    faces: &mut Faces,
)
    requires proper { AreProper rates.now }
    requires of_rates { AreOf rates.now multipliers.now }
    requires fit { FitSlopes layout.now.dims rates.now }
    requires small { HaveSmall blocks.old }
{
    for block in blocks.iter_mut() {
        make_stage(kernel, layout, rates, multipliers, block, faces);
    }
}

/// The nanoseconds of a stage of all blocks, and of their letters where those fill ghosts. None where a total is 2^62 or
/// more, or no time or no memory is had. The test of the totals is not timed.
fn stage_time<C: Clock>(
    clock: &C,
    alloc: Global,
    kernel: Kernel,
    layout: &Layout,
    rates: &LevelRates,
    multipliers: &Multipliers,
    blocks: &mut [Block],
    faces: &mut Faces,
) -> Option<u128>
    requires proper { AreProper rates.now }
    requires of_rates { AreOf rates.now multipliers.now }
    requires fit { FitSlopes layout.now.dims rates.now }
{
    if !have_small(blocks) {
        return None;
    }
    let start = Instant::now(clock);
    make_stages(kernel, layout, rates, multipliers, blocks, faces);
    if kernel == Kernel::Letters && exchange(alloc, layout, blocks).is_err() {
        return None;
    }
    nanoseconds_since(clock, start)
}

impl Run {
    pub(crate) fn new(alloc: Global, case: Case) -> Result<Run, NoMemory> {
        let layout = case.size.layout();
        let faces = Faces::new(alloc, &layout)?;
        let mut blocks = Vec::with_capacity(alloc, BLOCKS as usize)?;
        for number in 0..BLOCKS {
            blocks.push(Block::new(alloc, &layout, case.bits, number)?)?;
        }
        Ok(Run {
            case,
            layout,
            blocks,
            faces,
        })
    }

    /// How many cells a stage updates.
    fn cells(&self) -> u64
        ensures least { 1 ≤ result }
        ensures most { result ≤ 2 ^ 32 }
    {
        let cells = BLOCKS * self.layout.interior_len() as u64;
        cells.max(1)
    }

    /// The nanoseconds of some stages of all blocks.
    fn time_of<C: Clock>(&mut self, clock: &C, alloc: Global, times: u64) -> Option<u128> {
        let rates = rates_of(self.case.ways);
        let multipliers = Multipliers::of(&rates);
        let mut time = 0u128;
        for _ in 0..times {
            let took = stage_time(
                clock,
                alloc,
                self.case.kernel,
                &self.layout,
                &rates,
                &multipliers,
                self.blocks.as_mut_slice(),
                &mut self.faces,
            )?;
            time = time.saturating_add(took);
        }
        Some(time)
    }

    /// The hundredths of a nanosecond that an update of a cell takes, by the fastest of many rounds.
    pub(crate) fn best_time<C: Clock>(&mut self, clock: &C, alloc: Global) -> Option<u128> {
        let times = UPDATES / self.cells() + 1;
        let mut best = u128::from(u64::MAX);
        for _ in 0..ROUNDS {
            let time = self.time_of(clock, alloc, times)?;
            best = best.min(time);
        }
        Some(best.min(u128::from(u64::MAX)) * 100 / (u128::from(times) * u128::from(self.cells())))
    }

    /// The sum of all totals after a stage; None as for its time.
    pub(crate) fn total_after<C: Clock>(&mut self, clock: &C, alloc: Global) -> Option<u128> {
        let _ = self.time_of(clock, alloc, 1)?;
        Some(sum_of(self.blocks.as_slice()))
    }
}

/// The nanoseconds since a time, if the clock tells.
fn nanoseconds_since<C: Clock>(clock: &C, start: io::Result<Instant>) -> Option<u128> {
    match start {
        Ok(at) => match at.elapsed(clock) {
            Ok(took) => Some(took.as_nanos()),
            Err(_) => None,
        },
        Err(_) => None,
    }
}

/// The sum of all totals, past its type's end from 0 on.
fn sum_of(blocks: &[Block]) -> u128 {
    let mut sum = 0u128;
    for block in blocks {
        for total in block.next.as_slice() {
            sum = sum.wrapping_add(u128::from(*total));
        }
    }
    sum
}
