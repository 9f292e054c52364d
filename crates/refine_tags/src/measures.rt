//! What a criterion measures of a block, and what it wishes.

ghost use Rattle.std.specs.Prelude.{◌≡◌, ◌+◌, ◌*◌, ◌<◌, ◌≤◌, [], ◌∷◌, ℕ, length, slice_index};
ghost use Rattle.mesh_settings.specs.declared.words.Method.TheVariants.{Jump};
ghost use Rattle.mesh_rules.specs.Tags.{difference, wish_by};
ghost use Rattle.block_layout.specs.Layouts.{len};
ghost use Rattle.block_layout.specs.Regions.{interior};
ghost use Rattle.cell_boxes.specs.Boxes.{IsBoxIn, address};
ghost use Rattle.block_regions.specs.Boxes.{box_of};
ghost use Rattle.block_regions.specs.Rows.{IsRowOf};
ghost use Rattle.refine_tags.specs.Measures.{greatest_in, measured_at, measured_in, total_at};

use crate::rows::{greatest, greatest_difference, greatest_step};
use block_layout::Layout;
use block_regions::row_start;
use cell_boxes::BoxIn;
use mesh_rules::Wish;
use problem_set::{Criterion, Method};

/// The own cells of a block in its list with ghosts.
pub fn own_cells(layout: &Layout) -> BoxIn
    ensures value { result ≡ box_of layout.now (interior layout.now).low }
    ensures lies { IsBoxIn layout.now.cells result (len layout.now) }
{
    BoxIn {
        first: 0,
        widths: [layout.width(0), layout.width(1), layout.width(2)],
        low: [
            layout.ghost_layers(0),
            layout.ghost_layers(1),
            layout.ghost_layers(2),
        ],
    }
}

/// A row of a block's own cells.
fn row_at<'a>(layout: &Layout, cells: &'a [u64], own: &BoxIn, row: usize, plane: usize) -> &'a [u64]
    requires own { IsBoxIn layout.now.cells own.now (length cells.now) }
    requires row { IsRowOf layout.now.cells row plane }
    ensures len { length result.now ≡ slice_index layout.now.cells 0 }
    ensures cells { (x : ℕ) → x < slice_index layout.now.cells 0
        → slice_index result.now x ≡ total_at cells.now own.now (x ∷ row ∷ plane ∷ []) }
{
    let [along1, along2, along3] = layout.cells;
    let extents = [along1 as usize, along2 as usize, along3 as usize];
    let at = row_start(&extents, own, cells.len(), row, plane);
    &cells[at..at + extents[0]]
}

/// The greatest difference of the cells of a row and those of the next one, which the block may have or not.
fn step_beside(
    layout: &Layout,
    cells: &[u64],
    own: &BoxIn,
    here: &[u64],
    row: usize,
    plane: usize,
) -> u64
    requires own { IsBoxIn layout.now.cells own.now (length cells.now) }
    requires here { length here.now ≡ slice_index layout.now.cells 0 }
    ensures each { (x : ℕ) → x < slice_index layout.now.cells 0 → IsRowOf layout.now.cells row plane
        → difference (slice_index here.now x) (total_at cells.now own.now (x ∷ row ∷ plane ∷ [])) ≤ result }
    ensures least { (most : ℕ) → ((x : ℕ) → x < slice_index layout.now.cells 0 → IsRowOf layout.now.cells row plane
        → difference (slice_index here.now x) (total_at cells.now own.now (x ∷ row ∷ plane ∷ [])) ≤ most)
        → result ≤ most }
{
    if row < layout.cells[1] as usize && plane < layout.cells[2] as usize {
        greatest_difference(here, row_at(layout, cells, own, row, plane))
    } else {
        0
    }
}

/// The greatest of what is measured in the cells of a row.
fn greatest_in_row(
    method: Method,
    layout: &Layout,
    cells: &[u64],
    own: &BoxIn,
    row: usize,
    plane: usize,
) -> u64
    requires own { IsBoxIn layout.now.cells own.now (length cells.now) }
    requires row { IsRowOf layout.now.cells row plane }
    ensures each { (x : ℕ) → x < slice_index layout.now.cells 0
        → measured_at method layout.now (total_at cells.now own.now) (x ∷ row ∷ plane ∷ []) ≤ result }
    ensures least { (most : ℕ) → ((x : ℕ) → x < slice_index layout.now.cells 0
        → measured_at method layout.now (total_at cells.now own.now) (x ∷ row ∷ plane ∷ []) ≤ most) → result ≤ most }
{
    let here = row_at(layout, cells, own, row, plane);
    match method {
        Method::Peak => greatest(here),
        Method::Jump => greatest_step(here)
            .max(step_beside(layout, cells, own, here, row + 1, plane))
            .max(step_beside(layout, cells, own, here, row, plane + 1)),
    }
}

/// The greatest of what is measured in the cells of a block.
fn greatest_in_block(method: Method, layout: &Layout, cells: &[u64], own: &BoxIn) -> u64
    requires { IsBoxIn layout.now.cells own.now (length cells.now) }
    ensures { result ≡ greatest_in method layout.now (total_at cells.now own.now) }
{
    let mut best = 0u64;
    for plane in 0..layout.cells[2] as usize {
        for row in 0..layout.cells[1] as usize {
            best = best.max(greatest_in_row(method, layout, cells, own, row, plane));
        }
    }
    best
}

/// What a criterion wishes for a block of a level, whose own cells lie as a box in a list: with ghosts (see
/// [`own_cells`]) or without.
pub fn wish_of(
    criterion: &Criterion,
    level: u32,
    layout: &Layout,
    cells: &[u64],
    own: &BoxIn,
) -> Wish
    requires level { level ≤ 10 }
    requires own { IsBoxIn layout.now.cells own.now (length cells.now) }
    ensures { result ≡ wish_by criterion.now level
        (measured_in criterion.now.method layout.now level (total_at cells.now own.now)) }
{
    let greatest = greatest_in_block(criterion.method, layout, cells, own);
    let measure = u128::from(greatest) * u128::from(2u64.pow(layout.dims * level));
    if u128::from(criterion.refine_tol) < measure && level < criterion.max_level {
        return Wish::Refine;
    }
    if measure < u128::from(criterion.derefine_tol) {
        return Wish::Derefine;
    }
    Wish::Same
}
