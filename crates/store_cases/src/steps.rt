//! Steps of a mesh state, each made where its condition holds.

ghost use Rattle.std.specs.Prelude.{◌≡◌, ◌-◌, ◌<◌, ◌^◌, ℕ, Some, true};
ghost use Rattle.alloc_epochs.specs.Shelf.{place_on};
ghost use Rattle.cell_block.specs.State.{Fits, IsIn, buffer_at};
ghost use Rattle.field_bufs.specs.declared.buf.FieldBuf.{FieldBuf};

use block_tree::Tree;
use cell_block::MeshState;
use field_bufs::FieldBuf;
use mesh_num::NoMemory;
use package_fields::Registry;
use problem_set::Problem;
use sparse_pool::{PackKind, Place};
use std::alloc::Global;

/// A step at a place.
#[derive(Clone, Copy, Debug)]
pub enum Step {
    /// A buffer of zeros is added.
    Add,
    /// The buffer is lent, and kept in hand.
    TakeOut,
    /// The buffer in hand is put back.
    PutBack,
    /// The place is freed.
    Release,
    /// The idle count is set.
    Idle(u32),
    /// The stamps of the block rise.
    Stamp,
    /// The epochs begin again.
    Restart,
    /// Nothing is done.
    Look,
}

/// A mesh state, and a buffer of it that is lent.
#[derive(Drop)]
pub struct Case {
    alloc: Global,
    state: MeshState,
    in_hand: Option<FieldBuf>,
}

/// Whether a place is one of a state.
fn is_in(state: &MeshState, at: Place) -> bool
    ensures { result ≡ true → IsIn state.now at }
{
    at.block < state.tree().len() && at.field < state.fields()
}

/// Whether a buffer has lists of the right lengths.
fn fits(state: &MeshState, buf: &FieldBuf) -> bool
    ensures { result ≡ true → Fits state.now buf.now }
{
    let layout = state.layout();
    let faces = layout.face_count();
    buf.cells.len() == layout.len() && buf.right.len() == faces && buf.left.len() == faces
}

impl Case {
    /// A case that begins with the fields that no block may go without.
    pub fn new(alloc: Global, problem: &Problem, tree: Tree) -> Result<Case, NoMemory> {
        let state = MeshState::empty(alloc, problem, tree)?;
        Ok(Case {
            alloc,
            state,
            in_hand: None,
        })
    }

    /// The state.
    pub fn state(&mut self) -> &mut MeshState {
        &mut self.state
    }

    /// Makes a step at a place, and tells what is seen there then.
    pub fn step(&mut self, step: Step, at: Place) -> Result<[u64; 6], NoMemory> {
        match step {
            Step::Add => add(self.alloc, &mut self.state, at)?,
            Step::TakeOut => self.in_hand = take_out(&mut self.state, at),
            Step::PutBack => put_back(&mut self.state, self.in_hand.take()),
            Step::Release => release(&mut self.state, at),
            Step::Idle(count) => set_idle(&mut self.state, at, count),
            Step::Stamp => stamp(&mut self.state, at.block),
            Step::Restart => self.state.restart_epochs(),
            Step::Look => {}
        }
        Ok(seen(&self.state, at))
    }
}

fn add(alloc: Global, state: &mut MeshState, at: Place) -> Result<(), NoMemory> {
    if !is_in(state, at) || state.allocated(at) {
        return Ok(());
    }
    let list = state.partition(at.block);
    if state.epoch(list) == u64::MAX {
        return Ok(());
    }
    state.reserve(list, 1)?;
    let buf = FieldBuf::zeros(alloc, state.layout(), at.block, at.field, 0)?;
    if fits(state, &buf) {
        state.add(buf);
    }
    Ok(())
}

fn take_out(state: &mut MeshState, at: Place) -> Option<FieldBuf> {
    if state.buffer(at).is_some() {
        Some(state.take_out(at))
    } else {
        None
    }
}

fn put_back(state: &mut MeshState, buf: Option<FieldBuf>) {
    let Some(buf) = buf else {
        return;
    };
    let at = Place {
        block: buf.block,
        field: buf.field,
    };
    if state.lent(at) && fits(state, &buf) {
        state.put_back(buf);
    }
}

fn release(state: &mut MeshState, at: Place) {
    if !is_in(state, at) || state.buffer(at).is_none() {
        return;
    }
    let list = state.partition(at.block);
    if state.epoch(list) < u64::MAX {
        let _ = state.release(at);
    }
}

fn set_idle(state: &mut MeshState, at: Place, count: u32) {
    if state.allocated(at) {
        state.set_idle(at, count);
    }
}

/// Whether the stamps of a block can rise.
fn can_stamp(state: &MeshState, block: u32) -> bool
    ensures { result ≡ true → (f : ℕ) (buf : FieldBuf) → buffer_at state.now (place_on block f) ≡ Some buf → buf.stamp < 2 ^ 32 - 1 }
{
    let _ = state.tree();
    for field in 0..state.fields() {
        if stamp_at(state, Place { block, field }) == u32::MAX {
            return false;
        }
    }
    true
}

/// The stamp at a place, 99 where there is no buffer.
fn stamp_at(state: &MeshState, at: Place) -> u32
    ensures { (buf : FieldBuf) → buffer_at state.now at ≡ Some buf → result ≡ buf.stamp }
{
    match state.buffer(at) {
        Some(buf) => buf.stamp,
        None => 99,
    }
}

fn stamp(state: &mut MeshState, block: u32) {
    if block < state.tree().len() && can_stamp(state, block) {
        state.raise_stamp(block);
    }
}

/// At a place: whether it is allocated, and lent; on how many blocks its field is; the epoch of its partition; its idle
/// count; and the stamp of its buffer, 99 where there is none.
fn seen(state: &MeshState, at: Place) -> [u64; 6] {
    if !is_in(state, at) {
        return [0; 6];
    }
    let allocated = state.allocated(at);
    let idle = if allocated { state.idle(at) } else { 0 };
    [
        u64::from(allocated),
        u64::from(state.lent(at)),
        state.count(at.field),
        state.epoch(state.partition(at.block)),
        u64::from(idle),
        u64::from(stamp_at(state, at)),
    ]
}

/// What a state tells besides: the sum of the totals in a block's own cells, how many places of a partition are listed, and
/// the tag counter of its first leaf once it was set.
pub fn told(
    state: &mut MeshState,
    at: Place,
    into: &mut [u64],
    fields: &Registry,
) -> Result<[u64; 3], NoMemory> {
    if !is_in(state, at)
        || state.lent(at)
        || fields.count() != state.fields()
        || into.len() != state.layout().interior_len()
    {
        return Ok([99; 3]);
    }
    state.interior(at, into);
    let listed = state.listed(state.partition(at.block), PackKind::All, fields)?;
    state.set_counter(at.block, 5);
    Ok([
        into.iter().copied().fold(0, u64::max),
        listed.len() as u64,
        u64::from(state.counter(at.block)),
    ])
}
