ghost use Rattle.std.specs.Prelude.{◌≡◌, ◌<◌, ◌^◌, length, position};
ghost use Rattle.pack_cache.specs.Packs.{IsIndex, same_place};

use sparse_pool::{PackKind, Place, Places};

/// The allocated places of a partition whose fields tasks of a kind take, as they were listed at an
/// epoch of the partition.
#[derive(Debug, Drop)]
pub struct Pack {
    pub partition: u32,
    pub kind: PackKind,
    pub epoch: u64,
    /// By block, then field.
    pub places: Places,
}

impl Pack {
    /// The number under which a place is listed, or None where it is not. A pack has few enough
    /// places for such a number. Where the places rise, those that are listed are found in steps
    /// that halve the list.
    pub fn index(&self, at: Place) -> Option<u32>
        requires { length self.now.places < 2 ^ 32 }
        ensures { IsIndex self.now.places at result }
    {
        match index_of(self.places.as_slice(), at) {
            None => None,
            Some(i) => Some(i as u32),
        }
    }
}

/// The number under which a place is listed.
fn index_of(places: &[Place], at: Place) -> Option<usize>
    ensures { IsIndex places.now at result }
{
    match places.binary_search(&at) {
        Ok(i) => Some(i),
        Err(_) => first_index_of(places, at),
    }
}

/// The first number under which a place is listed.
fn first_index_of(places: &[Place], at: Place) -> Option<usize>
    ensures { result ≡ position (same_place at) places.now }
{
    places
        .iter()
        .position(|place| place.block == at.block && place.field == at.field)
}
