//! Taking in what a task leaves.

ghost use Rattle.std.specs.Prelude.{◌≡◌, ◌+◌, ◌-◌, ◌/◌, ◌<◌, ◌≤◌, ◌^◌, None, IsSome, true, false, cond, length};
ghost use Rattle.cell_block.specs.State.{Fits, IsIn, buffer_in, epoch_at, first_of, leaf_count, leaves_in, list_count, place_of, spare_at, with_entry};
ghost use Rattle.cycle_stores.specs.Gives.{AreLowStamps, CanComeBack, CanCount, CanFree, CanMake, IsChangedTo, back_by, back_in, changed_in, counted_by, counted_in, filled_in, freed_in, is_out, is_there, made_in, new_in, raised_in};

use crate::left::Left;
use cell_block::MeshState;
use field_bufs::{Bufs, FieldBuf};
use sparse_pool::Place;

/// The place of a buffer.
fn place_of(buf: &FieldBuf) -> Place
    ensures { result ≡ place_of buf.now }
{
    Place {
        block: buf.block,
        field: buf.field,
    }
}

/// Raises the stamps of the buffers of so many blocks from one on, but of those that are lent.
fn raise_stamps(state: &mut MeshState, first: u32, count: u32)
    requires blocks { first + count ≤ leaf_count state.old }
    requires stamps { AreLowStamps state.old.places }
    ensures { state.new ≡ record state.old { places = raised_in state.old.places first count } }
{
    let _ = state.tree();
    for i in 0..count {
        state.raise_stamp(first + i);
    }
}

/// Raises those of a partition.
fn raise_list(state: &mut MeshState, size: u32, list: u32)
    requires size { size ≡ state.old.size }
    requires list { list < list_count state.old }
    requires stamps { AreLowStamps state.old.places }
    ensures { state.new ≡ record state.old {
      places = raised_in state.old.places (first_of state.old list) (leaves_in state.old list);
    } }
{
    let leaves = state.tree().len();
    let first = list * size;
    raise_stamps(state, first, size.min(leaves - first));
}

/// Sets the idle counts of the places of buffers.
fn set_counts(state: &mut MeshState, bufs: &[FieldBuf], counts: &[u32])
    requires { CanCount state.old.places bufs.now counts.now }
    ensures { state.new ≡ record state.old { places = counted_in state.old.places bufs.now counts.now } }
{
    for i in 0..bufs.len().min(counts.len()) {
        state.set_idle(place_of(&bufs[i]), counts[i]);
    }
}

/// Puts buffers back that were lent.
fn put_back(state: &mut MeshState, bufs: Bufs)
    requires { CanComeBack state.old state.old.places bufs }
    ensures { state.new ≡ record state.old { places = back_in state.old.places bufs } }
{
    for buf in bufs.into_vec() {
        state.put_back(buf);
    }
}

/// Takes the buffers back that a task was lent, and answers those that it made.
pub fn give_back(state: &mut MeshState, size: u32, left: Left) -> Bufs
    requires size { size ≡ state.old.size }
    requires list { left.list < list_count state.old }
    requires stamps { left.changes ≡ true → AreLowStamps state.old.places }
    requires counts { CanCount (changed_in state.old left) left.bufs left.counts }
    requires bufs { CanComeBack state.old (counted_by state.old left) left.bufs }
    ensures made { result ≡ left.made }
    ensures back { state.new ≡ record state.old { places = back_by state.old left } }
{
    if left.changes {
        raise_list(state, size, left.list);
    }
    set_counts(state, left.bufs.as_slice(), left.counts.as_slice());
    put_back(state, left.bufs);
    left.made
}

/// Puts a buffer in its place, where there is one or room for one.
fn put(state: &mut MeshState, list: u32, buf: FieldBuf)
    requires within { IsIn state.old (place_of buf) }
    requires list { buf.block / state.old.size ≡ list }
    requires sizes { Fits state.old buf }
    requires home { is_out state.old.places (place_of buf) ≡ false }
    requires room { 1 ≤ spare_at state.old list }
    requires epoch { epoch_at state.old list < 2 ^ 64 - 1 }
    ensures changed { IsChangedTo list (cond (is_there state.old.places (place_of buf)) 0 1) state.old state.new
        (filled_in state.old.places buf) }
    ensures spares { spare_at state.old list ≤ spare_at state.new list + 1 }
{
    let _ = state.tree();
    let at = place_of(&buf);
    if state.allocated(at) {
        let _former = state.take_out(at);
        state.put_back(buf);
    } else {
        state.add(buf);
    }
}

/// Puts buffers of a partition in their places, one after another.
pub fn make(state: &mut MeshState, list: u32, bufs: Bufs)
    requires fits { CanMake state.old list state.old.places bufs }
    requires room { length bufs ≤ spare_at state.old list }
    requires epoch { epoch_at state.old list + length bufs < 2 ^ 64 }
    ensures { IsChangedTo list (new_in state.old.places bufs) state.old state.new (made_in state.old.places bufs) }
{
    for buf in bufs.into_vec() {
        put(state, list, buf);
    }
}

/// Frees a place.
fn free_place(state: &mut MeshState, list: u32, at: Place)
    requires home { IsSome (buffer_in state.old.places at) }
    requires list { at.block / state.old.size ≡ list }
    requires epoch { epoch_at state.old list < 2 ^ 64 - 1 }
    ensures { IsChangedTo list 1 state.old state.new (with_entry state.old.places at None) }
{
    let _ = state.tree();
    let _freed = state.release(at);
}

/// Frees places of a partition, one after another.
pub fn free(state: &mut MeshState, list: u32, places: &[Place])
    requires fits { CanFree state.old list state.old.places places.now }
    requires epoch { epoch_at state.old list + length places.now < 2 ^ 64 }
    ensures { IsChangedTo list (length places.now) state.old state.new (freed_in state.old.places places.now) }
{
    for at in places {
        free_place(state, list, *at);
    }
}
