//! Lending buffers.

ghost use Rattle.std.specs.Prelude.{◌≡◌, ◌+◌, ◌++◌, ◌≤◌, Some, length, map, vec_capacity};
ghost use Rattle.cycle_stores.specs.Stores.{CanLend, lent_in, taken_in};

use cell_block::MeshState;
use field_bufs::FieldBuf;
use sparse_pool::Place;

/// Lends the buffers of places, one after another, to the end of a list that has room for them.
pub fn lend_into(state: &mut MeshState, places: &[Place], bufs: &mut Vec<FieldBuf>)
    requires can { CanLend state.old.places places.now }
    requires room { length bufs.old.items + length places.now ≤ vec_capacity bufs.old }
    ensures lent { state.new ≡ record state.old { places = lent_in state.old.places places.now } }
    ensures bufs { map Some bufs.new.items ≡ map Some bufs.old.items ++ taken_in state.old.places places.now }
{
    for at in places {
        bufs.push_reserved(state.take_out(*at));
    }
}
