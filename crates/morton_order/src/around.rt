//! All neighbours of a location.

ghost use Rattle.std.specs.Prelude.{◌≡◌, ◌<◌, All, IfSome, IsTrue, ◌↔◌};
ghost use Rattle.morton_order.specs.Space.{IsIn, IsShape, blocks_along};
ghost use Rattle.morton_order.specs.Neighbours.{at_offset as at_offset_of};
ghost use Rattle.morton_order.specs.Neighbours.{at_offsets as at_offsets_of, neighbours as neighbours_of};

use crate::locations::{beside, coordinate};
use crate::space::{Loc, Shape};
use smallvec::SmallVec;
use std::alloc::Global;
use std::marker::Model;

/// A short list of locations, kept inline.
#[derive(Drop)]
pub struct Around {
    places: SmallVec<Loc, 26>,
}

impl Model for Around {
    ghost use Rattle.std.specs.Prelude.{List};
    ghost use Rattle.morton_order.specs.declared.space.Loc.{Loc};

    ghost Value = { List Loc };

    ghost view = { λ a. a.places.items };
}

impl Around {
    ghost use Rattle.std.specs.Prelude.{length, slice_get};
    ghost use Rattle.std.specs.Option.{option_copied};

    /// How many locations the list has.
    pub fn len(&self) -> usize
        ensures { result ≡ length self.now }
    {
        self.places.len()
    }

    /// Whether the list has no location.
    pub fn is_empty(&self) -> bool
        ensures { IsTrue result ↔ (length self.now ≡ 0) }
    {
        self.places.is_empty()
    }

    /// The location at a place of the list, none exactly past its end.
    pub fn get(&self, i: usize) -> Option<&Loc>
        ensures { option_copied result ≡ slice_get self.now i }
    {
        self.places.as_slice().get(i)
    }
}

/// The coordinate at the offset -1, 0 or 1 along an axis, which are numbered 0, 1 and 2.
fn at_offset(at: &Loc, axis: u32, offset: u32, shape: &Shape) -> Option<u32>
    requires shape { IsShape shape.now }
    requires valid { IsIn shape.now at.now }
    requires axis { axis < 3 }
    ensures value { result ≡ at_offset_of shape.now at.now axis offset }
    ensures within { IfSome result (λ to. to < blocks_along shape.now axis at.now.level) }
{
    match offset {
        1 => Some(coordinate(at, axis)),
        _ if axis >= shape.dims => None,
        0 => beside(at, axis, false, shape),
        _ => beside(at, axis, true, shape),
    }
}

/// The location at the offsets whose numbers are the three digits of `k` to base three, that of x1 lowest.
fn at_offsets(at: &Loc, k: u32, shape: &Shape) -> Option<Loc>
    requires shape { IsShape shape.now }
    requires valid { IsIn shape.now at.now }
    ensures value { result ≡ at_offsets_of shape.now at.now k }
    ensures within { IfSome result (IsIn shape.now) }
{
    let l1 = at_offset(at, 0, k % 3, shape)?;
    let l2 = at_offset(at, 1, k / 3 % 3, shape)?;
    let l3 = at_offset(at, 2, k / 9, shape)?;
    Some(Loc {
        level: at.level,
        l1,
        l2,
        l3,
    })
}

/// The neighbours of `at` over faces, edges and corners: by offsets -1 to 1, x1 fastest, the zero offset left out.
///
/// Those outside the domain are left out; along an axis that wraps a location may come twice, or be `at` itself.
pub fn neighbours(alloc: Global, at: &Loc, shape: &Shape) -> Around
    requires shape { IsShape shape.now }
    requires valid { IsIn shape.now at.now }
    ensures value { result ≡ neighbours_of shape.now at.now }
    ensures within { All (IsIn shape.now) result }
{
    let mut places = SmallVec::new(alloc);
    for k in 0..27 {
        if k == 13 {
            continue;
        }
        if let Some(neighbour) = at_offsets(at, k, shape) {
            places.push_reserved(neighbour);
        }
    }
    Around { places }
}
