//! The keys of time, of sparse fields and of the whole numbers.

ghost use Rattle.std.specs.Prelude.{◌≡◌, ◌≤◌, IfOk};
ghost use Rattle.deck_values.specs.Reading.{Gives};
ghost use Rattle.mesh_settings.specs.Stepping.{time as time_block, sparse as sparse_block, whole as whole_block};
ghost use Rattle.mesh_settings.specs.Stepping.{nlim, alloc_threshold, dealloc_threshold, dealloc_count};
ghost use Rattle.mesh_settings.specs.Stepping.{denominator, nstages, refine_every, dump_every};
ghost use Rattle.mesh_settings.specs.Stepping.{sparsity, cycle_settings, stepping};
ghost use Rattle.mesh_settings.specs.Sound.{IsSparsity, IsCycleSettings, IsStepping};
ghost use Rattle.mesh_settings.specs.Limits.{greatest_cycles, greatest_factor, greatest_stages, greatest_total};

use crate::limits::{GREATEST_CYCLES, GREATEST_FACTOR, GREATEST_STAGES, GREATEST_TOTAL};
use deck_values::{BlockReader, ProblemFault};
use input_file::Deck;
use std::alloc::Global;

/// When sparse fields are allocated and freed.
#[derive(Clone, Copy)]
pub struct Sparsity {
    pub alloc_threshold: u64,
    pub dealloc_threshold: u64,
    pub dealloc_count: u32,
}

/// How a cycle goes on, and after which cycles more is done.
#[derive(Clone, Copy)]
pub struct CycleSettings {
    pub denominator: u64,
    pub nstages: u32,
    pub refine_every: u32,
    pub dump_every: u32,
}

/// What the keys of time, of sparse fields and of the whole numbers say.
#[derive(Clone, Copy)]
pub struct Stepping {
    pub nlim: u32,
    pub sparsity: Sparsity,
    pub cycle: CycleSettings,
}

/// Reads the keys of the three blocks in order.
#[tactic(auto, unfolding(crate::specs::Stepping::stepping))]
pub fn read_stepping(alloc: Global, deck: &Deck) -> Result<Stepping, ProblemFault>
    ensures value { Gives result (stepping deck.now) }
    ensures sound { IfOk result IsStepping }
{
    let time = time_reader(alloc, deck);
    let sparse = sparse_reader(alloc, deck);
    let whole = whole_reader(alloc, deck);
    let nlim = read_nlim(&time)?;
    let sparsity = read_sparsity(&sparse)?;
    let cycle = read_cycle_settings(&whole)?;
    Ok(Stepping {
        nlim,
        sparsity,
        cycle,
    })
}

#[tactic(auto, unfolding(crate::specs::Stepping::sparsity))]
fn read_sparsity(sparse: &BlockReader) -> Result<Sparsity, ProblemFault>
    requires { sparse.now.block.now ≡ sparse_block }
    ensures value { Gives result (sparsity sparse.now.deck.now) }
    ensures sound { IfOk result IsSparsity }
{
    let alloc_threshold = read_alloc_threshold(sparse)?;
    let dealloc_threshold = read_dealloc_threshold(sparse)?;
    let dealloc_count = read_dealloc_count(sparse)?;
    Ok(Sparsity {
        alloc_threshold,
        dealloc_threshold,
        dealloc_count,
    })
}

#[tactic(auto, unfolding(crate::specs::Stepping::cycle_settings))]
fn read_cycle_settings(whole: &BlockReader) -> Result<CycleSettings, ProblemFault>
    requires { whole.now.block.now ≡ whole_block }
    ensures value { Gives result (cycle_settings whole.now.deck.now) }
    ensures sound { IfOk result IsCycleSettings }
{
    let denominator = read_denominator(whole)?;
    let nstages = read_nstages(whole)?;
    let refine_every = read_refine_every(whole)?;
    let dump_every = read_dump_every(whole)?;
    Ok(CycleSettings {
        denominator,
        nstages,
        refine_every,
        dump_every,
    })
}

#[tactic(auto, unfolding(crate::specs::Stepping::time))]
fn time_reader<'a>(alloc: Global, deck: &'a Deck) -> BlockReader<'a>
    ensures deck { result.deck.now ≡ deck.now }
    ensures block { result.block.now ≡ time_block }
{
    BlockReader::new(alloc, deck, "parthenon/time")
}

#[tactic(auto, unfolding(crate::specs::Stepping::sparse))]
fn sparse_reader<'a>(alloc: Global, deck: &'a Deck) -> BlockReader<'a>
    ensures deck { result.deck.now ≡ deck.now }
    ensures block { result.block.now ≡ sparse_block }
{
    BlockReader::new(alloc, deck, "parthenon/sparse")
}

#[tactic(auto, unfolding(crate::specs::Stepping::whole))]
fn whole_reader<'a>(alloc: Global, deck: &'a Deck) -> BlockReader<'a>
    ensures deck { result.deck.now ≡ deck.now }
    ensures block { result.block.now ≡ whole_block }
{
    BlockReader::new(alloc, deck, "whole")
}

#[tactic(auto, unfolding(crate::specs::Stepping::nlim))]
fn read_nlim(time: &BlockReader) -> Result<u32, ProblemFault>
    requires { time.now.block.now ≡ time_block }
    ensures value { Gives result (nlim time.now.deck.now) }
    ensures greatest { IfOk result (λ n. n ≤ greatest_cycles) }
{
    let n = time.number("nlim", 0, GREATEST_CYCLES, None)?;
    Ok(n as u32)
}

#[tactic(auto, unfolding(crate::specs::Stepping::alloc_threshold))]
fn read_alloc_threshold(sparse: &BlockReader) -> Result<u64, ProblemFault>
    requires { sparse.now.block.now ≡ sparse_block }
    ensures value { Gives result (alloc_threshold sparse.now.deck.now) }
    ensures greatest { IfOk result (λ n. n ≤ greatest_total) }
{
    sparse.number("alloc_threshold", 0, GREATEST_TOTAL, Some(0))
}

#[tactic(auto, unfolding(crate::specs::Stepping::dealloc_threshold))]
fn read_dealloc_threshold(sparse: &BlockReader) -> Result<u64, ProblemFault>
    requires { sparse.now.block.now ≡ sparse_block }
    ensures value { Gives result (dealloc_threshold sparse.now.deck.now) }
    ensures greatest { IfOk result (λ n. n ≤ greatest_total) }
{
    sparse.number("dealloc_threshold", 0, GREATEST_TOTAL, Some(0))
}

#[tactic(auto, unfolding(crate::specs::Stepping::dealloc_count))]
fn read_dealloc_count(sparse: &BlockReader) -> Result<u32, ProblemFault>
    requires { sparse.now.block.now ≡ sparse_block }
    ensures value { Gives result (dealloc_count sparse.now.deck.now) }
    ensures least { IfOk result (λ n. 1 ≤ n) }
    ensures greatest { IfOk result (λ n. n ≤ greatest_cycles) }
{
    let n = sparse.number("dealloc_count", 1, GREATEST_CYCLES, Some(5))?;
    Ok(n as u32)
}

#[tactic(auto, unfolding(crate::specs::Stepping::denominator))]
fn read_denominator(whole: &BlockReader) -> Result<u64, ProblemFault>
    requires { whole.now.block.now ≡ whole_block }
    ensures value { Gives result (denominator whole.now.deck.now) }
    ensures least { IfOk result (λ n. 1 ≤ n) }
    ensures greatest { IfOk result (λ n. n ≤ greatest_factor) }
{
    whole.number("denominator", 1, GREATEST_FACTOR, Some(1000))
}

#[tactic(auto, unfolding(crate::specs::Stepping::nstages))]
fn read_nstages(whole: &BlockReader) -> Result<u32, ProblemFault>
    requires { whole.now.block.now ≡ whole_block }
    ensures value { Gives result (nstages whole.now.deck.now) }
    ensures least { IfOk result (λ n. 1 ≤ n) }
    ensures greatest { IfOk result (λ n. n ≤ greatest_stages) }
{
    let n = whole.number("nstages", 1, GREATEST_STAGES, Some(1))?;
    Ok(n as u32)
}

#[tactic(auto, unfolding(crate::specs::Stepping::refine_every))]
fn read_refine_every(whole: &BlockReader) -> Result<u32, ProblemFault>
    requires { whole.now.block.now ≡ whole_block }
    ensures value { Gives result (refine_every whole.now.deck.now) }
    ensures least { IfOk result (λ n. 1 ≤ n) }
    ensures greatest { IfOk result (λ n. n ≤ greatest_cycles) }
{
    let n = whole.number("refine_every", 1, GREATEST_CYCLES, Some(1))?;
    Ok(n as u32)
}

#[tactic(auto, unfolding(crate::specs::Stepping::dump_every))]
fn read_dump_every(whole: &BlockReader) -> Result<u32, ProblemFault>
    requires { whole.now.block.now ≡ whole_block }
    ensures value { Gives result (dump_every whole.now.deck.now) }
    ensures least { IfOk result (λ n. 1 ≤ n) }
    ensures greatest { IfOk result (λ n. n ≤ greatest_cycles) }
{
    let n = whole.number("dump_every", 1, GREATEST_CYCLES, Some(10))?;
    Ok(n as u32)
}
