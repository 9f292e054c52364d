//! What the child of a block has of the block's cells, and the block of its children's.

ghost use Rattle.std.specs.Prelude.{◌≡◌, ◌<◌, ◌/◌, ◌%◌, ◌^◌, ℕ, None, length, slice_index};
ghost use Rattle.std.specs.Option.{ForSome};
ghost use Rattle.std.specs.List.{slice_index_or};
ghost use Rattle.morton_order.specs.Space.{factor, parts as parts_of};
ghost use Rattle.block_layout.specs.Layouts.{interior_len};
ghost use Rattle.cell_boxes.specs.Boxes.{StaysOffBox};
ghost use Rattle.block_regions.specs.Rows.{whole_box};
ghost use Rattle.restrict_prolong.specs.Refined.{factors as factors_of};
ghost use Rattle.restrict_prolong.specs.Boxes.{HasSums, SumsBelow};
ghost use Rattle.dense_remesh.specs.Parts.{HasChildSums, HasParentShares, IsChildList, half_cells as half_cells_of, list_of, part_box as part_box_of};

use crate::origins::child_count;
use block_layout::Layout;
use block_regions::whole;
use cell_boxes::BoxIn;
use cell_lists::Cells;
use restrict_prolong::{factors, prolong_box, restrict_box};

/// The cells of a block along each axis.
fn cells(layout: &Layout) -> [usize; 3]
    ensures first { slice_index result 0 ≡ slice_index layout.now.cells 0 }
    ensures second { slice_index result 1 ≡ slice_index layout.now.cells 1 }
    ensures third { slice_index result 2 ≡ slice_index layout.now.cells 2 }
{
    [
        layout.cells[0] as usize,
        layout.cells[1] as usize,
        layout.cells[2] as usize,
    ]
}

/// Of so many cells along an axis, those that a child of the block covers.
fn half_along(dims: u32, axis: u32, cells: usize) -> usize
    ensures { result ≡ cells / factor dims axis }
{
    if axis < dims { cells / 2 } else { cells }
}

/// The cells along each axis that a child of a block covers.
fn half_cells(layout: &Layout) -> [usize; 3]
    ensures { result ≡ half_cells_of layout.now }
{
    [
        half_along(layout.dims, 0, layout.cells[0] as usize),
        half_along(layout.dims, 1, layout.cells[1] as usize),
        half_along(layout.dims, 2, layout.cells[2] as usize),
    ]
}

/// Which half of a block along an axis its child is, by the child's number without the bits of the axes before.
fn half_of(dims: u32, axis: u32, number: u32) -> usize
    ensures value { result ≡ number % factor dims axis }
    ensures bit { result < 2 }
{
    if axis < dims {
        (number % 2) as usize
    } else {
        0
    }
}

/// Where the cells that a child covers lie in the list of a block.
fn part_box(layout: &Layout, child: u32) -> BoxIn
    ensures { result ≡ part_box_of layout.now child }
{
    let [along1, along2, along3] = half_cells(layout);
    BoxIn {
        first: 0,
        widths: cells(layout),
        low: [
            half_of(layout.dims, 0, child) * along1,
            half_of(layout.dims, 1, child / 2) * along2,
            half_of(layout.dims, 2, child / 4) * along3,
        ],
    }
}

/// Writes the cells of a child of a block by their shares of the block's.
pub(crate) fn write_shares(layout: &Layout, child: u32, coarse: &[u64], into: &mut [u64])
    requires child { child < parts_of layout.now.dims }
    requires coarse { length coarse.now ≡ interior_len layout.now }
    requires into { length into.old ≡ interior_len layout.now }
    ensures { HasParentShares layout.now coarse.now child into.new }
{
    let half = half_cells(layout);
    let from_box = part_box(layout, child);
    let into_box = whole(cells(layout));
    prolong_box(layout.dims, half, coarse, from_box, into, into_box);
}

/// Writes the cells of a block that a child covers by the sums over the child's cells.
pub fn write_child_sums(layout: &Layout, child: u32, fine: &[u64], into: &mut [u64])
    requires child { child < parts_of layout.now.dims }
    requires fine { length fine.now ≡ interior_len layout.now }
    requires small { SumsBelow (2 ^ 62) (factors_of layout.now.dims) (half_cells_of layout.now) fine.now
        (whole_box layout.now.cells) }
    requires into { length into.old ≡ interior_len layout.now }
    ensures inside { HasSums (factors_of layout.now.dims) (half_cells_of layout.now) fine.now
        (whole_box layout.now.cells) into.new (part_box_of layout.now child) }
    ensures outside { StaysOffBox (half_cells_of layout.now) (part_box_of layout.now child) into.old into.new }
{
    let each = factors(layout.dims);
    let half = half_cells(layout);
    let from_box = whole(cells(layout));
    let into_box = part_box(layout, child);
    restrict_box(each, half, fine, from_box, into, into_box);
}

/// The list of a child.
fn child_list<'a>(field: &'a [Cells], number: &Option<u32>) -> &'a [u64]
    requires { ForSome number.now (λ leaf. leaf < length field.now) }
    ensures { result.now ≡ list_of field.now number.now }
{
    match number {
        Some(leaf) => field[*leaf as usize].as_slice(),
        None => &[],
    }
}

/// Writes the cells of a block by the sums over the cells of its children.
pub(crate) fn write_sums(
    layout: &Layout,
    numbers: &[Option<u32>; 8],
    field: &[Cells],
    into: &mut [u64],
)
    requires lists { (j : ℕ) → j < parts_of layout.now.dims
        → IsChildList layout.now field.now (slice_index_or numbers.now j None) }
    requires into { length into.old ≡ interior_len layout.now }
    ensures { HasChildSums layout.now field.now numbers.now (parts_of layout.now.dims) into.new }
{
    for j in 0..child_count(layout.dims) {
        let fine = child_list(field, &numbers[j as usize]);
        write_child_sums(layout, j, fine, into);
    }
}
