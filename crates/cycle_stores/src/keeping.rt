//! The set of places that are kept.

ghost use Rattle.std.specs.Prelude.{◌≤◌, ◌+◌, [], ◌∷◌, All, length};
ghost use Rattle.alloc_epochs.specs.Shelf.{IsOn};
ghost use Rattle.cycle_stores.specs.Stores.{AreKeptNoMore, AreKeptToo, IsShelf};

use alloc_epochs::Shelf;
use sparse_pool::Place;

/// Keeps a place too.
pub fn keep_place(kept: &mut Shelf, at: Place)
    requires shelf { IsShelf kept.old }
    requires within { IsOn kept.old at }
    requires room { 1 ≤ kept.old.spare }
    ensures kept { AreKeptToo kept.old kept.new (at ∷ []) }
    ensures spare { kept.old.spare ≤ kept.new.spare + 1 }
{
    if kept.key(at).is_none() {
        kept.restart_epoch();
        let _ = kept.allocate(at, 0);
    }
}

/// Keeps places too.
pub fn keep(kept: &mut Shelf, places: &[Place])
    requires shelf { IsShelf kept.old }
    requires within { All (IsOn kept.old) places.now }
    requires room { length places.now ≤ kept.old.spare }
    ensures { AreKeptToo kept.old kept.new places.now }
{
    for at in places {
        keep_place(kept, *at);
    }
}

/// Keeps a place no more.
fn keep_place_no_more(kept: &mut Shelf, at: Place)
    requires { IsShelf kept.old }
    ensures { AreKeptNoMore kept.old kept.new (at ∷ []) }
{
    kept.restart_epoch();
    let _ = kept.release(at);
}

/// Keeps places no more.
pub fn keep_no_more(kept: &mut Shelf, places: &[Place])
    requires { IsShelf kept.old }
    ensures { AreKeptNoMore kept.old kept.new places.now }
{
    for at in places {
        keep_place_no_more(kept, *at);
    }
}
