//! What the totals of each field add up to.

ghost use Rattle.std.specs.Prelude.{◌≡◌, ◌+◌, ◌-◌, ◌<◌, ◌≤◌, ◌^◌, ℕ, IfOk, length, sum};
ghost use Rattle.block_layout.specs.Layouts.{interior_len};
ghost use Rattle.problem_set.specs.SettingsOf.{settings_of};
ghost use Rattle.mesh_rules.specs.Sums.{table};
ghost use Rattle.mesh_rules.specs.Fields.{field_count};
ghost use Rattle.mesh_rules.specs.Mesh.{total_of};
ghost use Rattle.mesh_rules.specs.Cycle.{State};
ghost use Rattle.cell_block.specs.State.{HasLayout, leaf_count};
ghost use Rattle.cell_block.specs.Rules.{IsWhole, StandsFor};
ghost use Rattle.dump_writer.specs.Totals.{AreSums, CanCount, sum_below, sum_on_block};

use block_layout::Layout;
use cell_block::MeshState;
use cell_lists::Cells;
use mesh_num::NoMemory;
use problem_set::Problem;
use sparse_pool::Place;
use std::alloc::Global;

/// The sum of a block's totals.
fn block_total(cells: &[u64]) -> u64
    requires { sum cells.now < 2 ^ 64 }
    ensures { result ≡ sum cells.now }
{
    cells.iter().sum()
}

/// Adds what each field has on a block. The cells have room for the totals of a block.
fn add_block(mesh: &MeshState, layout: &Layout, leaf: u32, cells: &mut [u64], totals: &mut Vec<u64>)
    requires whole { IsWhole mesh.now }
    requires layout { HasLayout mesh.now layout.now }
    requires leaf { leaf < leaf_count mesh.now }
    requires cells { length cells.old ≡ interior_len layout.now }
    requires totals { AreSums mesh.now.fields (sum_below layout.now mesh.now leaf) totals.old.items }
    requires bound { (f : ℕ) → f < mesh.now.fields
        → sum_below layout.now mesh.now leaf f + sum_on_block layout.now mesh.now f leaf ≤ 2 ^ 62 - 1 }
    ensures cells { length cells.new ≡ interior_len layout.now }
    ensures totals { AreSums mesh.now.fields
        (λ f. sum_below layout.now mesh.now leaf f + sum_on_block layout.now mesh.now f leaf) totals.new.items }
{
    let _ = mesh.fields();
    let mut from = 0;
    while let Some(field) = mesh.next_field(leaf, from) {
        mesh.interior(Place { block: leaf, field }, cells);
        totals[field as usize] += block_total(cells);
        from = field + 1;
    }
}

/// Adds what each field has on all blocks.
fn add_blocks(mesh: &MeshState, layout: &Layout, cells: &mut [u64], totals: &mut Vec<u64>)
    requires whole { IsWhole mesh.now }
    requires layout { HasLayout mesh.now layout.now }
    requires cells { length cells.old ≡ interior_len layout.now }
    requires totals { AreSums mesh.now.fields (sum_below layout.now mesh.now 0) totals.old.items }
    requires bound { (f : ℕ) → f < mesh.now.fields
        → sum_below layout.now mesh.now (leaf_count mesh.now) f ≤ 2 ^ 62 - 1 }
    ensures { AreSums mesh.now.fields (sum_below layout.now mesh.now (leaf_count mesh.now)) totals.new.items }
{
    for leaf in 0..mesh.tree().len() {
        add_block(mesh, layout, leaf, cells, totals);
    }
}

/// What the totals of each field of a mesh state add up to, by field.
///
/// The work grows with allocated places and blocks. Memory goes to a number for each field, and to the cells of one
/// block.
pub fn field_totals(alloc: Global, problem: &Problem, mesh: &MeshState) -> Result<Cells, NoMemory>
    requires { CanCount (settings_of problem.now) mesh.now }
    ensures count { IfOk result (λ totals. length totals ≡ mesh.now.fields) }
    ensures totals { (c : State) → StandsFor (settings_of problem.now) mesh.now c
        → IfOk result (λ totals. totals ≡ table (field_count (settings_of problem.now)) (total_of c.mesh)) }
{
    let layout = mesh.layout();
    let mut cells = vec![in alloc; 0u64; layout.interior_len()]?;
    let mut totals = vec![in alloc; 0u64; mesh.fields() as usize]?;
    add_blocks(mesh, layout, cells.as_mut_slice(), &mut totals);
    Ok(Cells::of(totals))
}
