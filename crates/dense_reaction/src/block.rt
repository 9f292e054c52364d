//! A kernel in all cells of a block.

ghost use Rattle.std.specs.Prelude.{◌≡◌, ◌<◌, ◌≤◌, ◌^◌, ◌++◌, ◌∷◌, ℕ, [], IfOk, OnOk, map, length, sum, All};
ghost use Rattle.std.specs.List.{slice_index_or};
ghost use Rattle.package_fields.specs.Flow.{IsBelow};
ghost use Rattle.dense_mask.specs.Steps.{IsDone};
ghost use Rattle.dense_reaction.specs.Blocks.{AddsReacted, HasGained, HasReacted, cell_in};

use crate::cell::react_cell;
use cell_lists::Cells;
use dense_mesh::FieldTotals;
use mesh_num::NoMemory;
use package_fields::{CellKernel, Flow};
use std::alloc::Global;
use std::mem;

/// Applies a kernel in each of the `size` cells of a block, of which there is a row of totals for each field.
fn react_rows<C: CellKernel>(
    kernel: &C,
    rows: &mut Vec<Cells>,
    size: usize,
    cell: &mut [u64],
    flows: &mut [Flow],
)
    requires fields { C.fields kernel.now ≡ length rows.old.items }
    requires cell { length cell.old ≡ length rows.old.items }
    requires flows { length flows.old ≡ length rows.old.items }
    requires size { size ≤ 262144 }
    requires sizes { All (λ row. length row ≡ size) rows.old.items }
    requires small_cells { (place : ℕ) → place < size → sum (cell_in rows.old.items place) < 2 ^ 62 }
    requires small_flows { All (IsBelow (2 ^ 98)) flows.old }
    ensures rows { HasReacted (C.reacts (C.code kernel.now)) size rows.old.items rows.new.items }
    ensures flows { HasGained (λ place. C.reacts (C.code kernel.now) (cell_in rows.old.items place)) size flows.old
        flows.new }
{
    for place in 0..size {
        react_cell(kernel, rows, place, cell, flows);
    }
}

/// The totals of each field on a leaf.
fn copy_rows(alloc: Global, lists: &[FieldTotals], leaf: usize) -> Result<Vec<Cells>, NoMemory>
    requires { All (λ list. leaf < length list) lists.now }
    ensures { IfOk result (λ rows. rows.items ≡ map (λ list. slice_index_or list leaf []) lists.now) }
{
    let mut rows = Vec::with_capacity(alloc, lists.len())?;
    for list in lists {
        rows.push(Cells::from_slice(alloc, list.as_slice()[leaf].as_slice())?)?;
    }
    Ok(rows)
}

/// Moves each row to the end of the list of its field.
fn push_rows(
    alloc: Global,
    rows: &mut Vec<Cells>,
    into: &mut Vec<FieldTotals>,
) -> Result<(), NoMemory>
    requires { length rows.old.items ≡ length into.old.items }
    ensures { OnOk result (IsDone (λ f before after. after
        ≡ before ++ slice_index_or rows.old.items f [] ∷ []) [] into.old.items into.new.items) }
{
    for field in 0..rows.len() {
        let row = mem::replace(&mut rows[field], Cells::new(alloc));
        into[field].push(row)?;
    }
    Ok(())
}

/// Applies a kernel in each cell of a leaf, and adds the totals that it leaves to the end of the list of each field.
pub fn react_leaf<C: CellKernel>(
    alloc: Global,
    kernel: &C,
    lists: &[FieldTotals],
    leaf: usize,
    size: usize,
    cell: &mut [u64],
    flows: &mut [Flow],
    into: &mut Vec<FieldTotals>,
) -> Result<(), NoMemory>
    requires fields { C.fields kernel.now ≡ length lists.now }
    requires cell { length cell.old ≡ length lists.now }
    requires flows { length flows.old ≡ length lists.now }
    requires into { length into.old.items ≡ length lists.now }
    requires leaf { All (λ list. leaf < length list) lists.now }
    requires size { size ≤ 262144 }
    requires sizes { All (λ list. length (slice_index_or list leaf []) ≡ size) lists.now }
    requires small_cells { (place : ℕ) → place < size
        → sum (cell_in (map (λ list. slice_index_or list leaf []) lists.now) place) < 2 ^ 62 }
    requires small_flows { All (IsBelow (2 ^ 98)) flows.old }
    ensures lists { OnOk result (AddsReacted (C.reacts (C.code kernel.now)) size
        (map (λ list. slice_index_or list leaf []) lists.now) into.old.items into.new.items) }
    ensures flows { OnOk result (HasGained
        (λ place. C.reacts (C.code kernel.now) (cell_in (map (λ list. slice_index_or list leaf []) lists.now) place))
        size flows.old flows.new) }
{
    let mut rows = copy_rows(alloc, lists, leaf)?;
    react_rows(kernel, &mut rows, size, cell, flows);
    push_rows(alloc, &mut rows, into)
}
