//! What passes the faces of one axis in one direction.

ghost use Rattle.std.specs.Prelude.{◌≡◌, ◌≤◌, ◌<◌, ◌^◌, length, All};
ghost use Rattle.block_layout.specs.Layouts.{len};
ghost use Rattle.block_layout.specs.Faces.{face_count};
ghost use Rattle.upwind_fluxes.specs.Fluxes.{OthersStay};
ghost use Rattle.slope_kernel.specs.Beside.{cells_beside, faces_of, number_ahead, number_behind, number_here};
ghost use Rattle.slope_kernel.specs.Slopes.{SlopesPaid};

use block_layout::Layout;
use box_updates::{BoxIn, update_box};
use stage_rules::SlopePay;
use upwind_fluxes::{Donor, face_extents};
use upwind_portions::Portions;

/// The cells of one number beside the faces of an axis: 0 and 1 lie below the face, 2 and 3 above it, by rising
/// coordinate.
fn beside(layout: &Layout, axis: u32, number: usize) -> BoxIn
    requires { axis < layout.now.dims }
    ensures { result ≡ cells_beside layout.now axis number }
{
    let mut low = [
        layout.ghost_layers(0),
        layout.ghost_layers(1),
        layout.ghost_layers(2),
    ];
    low[axis as usize] = number;
    BoxIn {
        first: 0,
        widths: [layout.width(0), layout.width(1), layout.width(2)],
        low,
    }
}

/// Where the faces of an axis lie.
fn faces_in(layout: &Layout, axis: u32) -> BoxIn
    requires { axis < layout.now.dims }
    ensures { result ≡ faces_of layout.now axis }
{
    BoxIn {
        first: layout.first_face(axis),
        widths: face_extents(layout, axis),
        low: [0, 0, 0],
    }
}

/// The number of the cells behind those that pay.
fn behind(donor: Donor) -> usize
    ensures { result ≡ number_behind donor }
{
    match donor {
        Donor::Below => 0,
        Donor::Above => 3,
    }
}

/// The number of the cells that pay.
fn here(donor: Donor) -> usize
    ensures { result ≡ number_here donor }
{
    match donor {
        Donor::Below => 1,
        Donor::Above => 2,
    }
}

/// The number of the cells ahead of them, beyond the face.
fn ahead(donor: Donor) -> usize
    ensures { result ≡ number_ahead donor }
{
    match donor {
        Donor::Below => 2,
        Donor::Above => 1,
    }
}

/// Writes what the cells at one side of the faces of an axis pay; the faces of the other axes stay as they are.
pub(crate) fn write_slopes<P: Portions>(
    layout: &Layout,
    axis: u32,
    donor: Donor,
    portions: P,
    cells: &[u64],
    into: &mut [u64],
)
    requires axis { axis < layout.now.dims }
    requires cells { length cells.now ≡ len layout.now }
    requires faces { length into.old ≡ face_count layout.now }
    requires served { All (λ t. t ≤ P.greatest portions) cells.now }
    requires small { All (λ t. t < 2 ^ 62) cells.now }
    ensures along { SlopesPaid layout.now axis donor (P.rate portions) (P.denominator portions) cells.now into.new }
    ensures others { OthersStay layout.now axis into.old into.new }
{
    let far = beside(layout, axis, behind(donor));
    let payers = beside(layout, axis, here(donor));
    let next = beside(layout, axis, ahead(donor));
    update_box(
        &SlopePay { portions },
        face_extents(layout, axis),
        into,
        faces_in(layout, axis),
        cells,
        far,
        payers,
        cells,
        next,
        next,
    );
}
