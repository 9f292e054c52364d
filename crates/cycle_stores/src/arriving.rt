//! Buffers for what comes with a letter.

ghost use Rattle.std.specs.Prelude.{◌≡◌, ◌<◌, ◌==◌, ◌&&◌, [], IfOk, OnErr, filter, map};
ghost use Rattle.std.specs.List.{list_all};
ghost use Rattle.block_layout.specs.declared.layout.Layout.{Layout};
ghost use Rattle.problem_set.specs.SettingsOf.{settings_of};
ghost use Rattle.mesh_rules.specs.Fields.{field_count, has_ghosts, is_sparse};
ghost use Rattle.cell_block.specs.State.{HasLayout};
ghost use Rattle.cycle_stores.specs.Arrivals.{makes, may_come, zeros_for};

use cell_block::MeshState;
use field_bufs::{Bufs, FieldBuf};
use ghost_buffers::{Letter, Part};
use mesh_num::NoMemory;
use package_fields::Flag;
use problem_set::Problem;
use sparse_pool::Place;
use std::alloc::Global;

/// Whether blocks may go without a field, and it has ghosts.
fn may_come(problem: &Problem, field: u32) -> bool
    ensures { result ≡ may_come (settings_of problem.now) field }
{
    field < problem.fields.count() && is_sparse_with_ghosts(problem, field)
}

/// The same of a field that there is.
fn is_sparse_with_ghosts(problem: &Problem, field: u32) -> bool
    requires { field < field_count (settings_of problem.now) }
    ensures { result ≡ (is_sparse (settings_of problem.now) field && has_ghosts (settings_of problem.now) field) }
{
    problem.fields.has(field, Flag::Sparse) && problem.fields.has(field, Flag::FillGhost)
}

/// Whether all totals are zero.
fn is_blank(cells: &[u64]) -> bool
    ensures { result ≡ list_all (λ total. total == 0) cells.now }
{
    cells.iter().all(|total| *total == 0)
}

/// Whether a part makes a buffer on a block.
fn is_made(state: &MeshState, problem: &Problem, block: u32, part: &Part) -> bool
    ensures { result ≡ makes (settings_of problem.now) state.now block part.now }
{
    let at = Place {
        block,
        field: part.field,
    };
    may_come(problem, part.field) && !state.allocated(at) && !is_blank(part.cells.as_slice())
}

/// The buffers of zeros that parts make on a block, in their order. No memory is taken where they make none.
pub fn zeros_of(
    alloc: Global,
    state: &MeshState,
    problem: &Problem,
    letter: &Letter,
    stamp: u32,
) -> Result<Bufs, NoMemory>
    ensures bufs { IfOk result (λ bufs. (l : Layout) → HasLayout state.now l → bufs
        ≡ map (zeros_for l letter.now.to stamp)
        (filter (makes (settings_of problem.now) state.now letter.now.to) letter.now.parts)) }
    ensures refused { OnErr result (filter (makes (settings_of problem.now) state.now letter.now.to) letter.now.parts
        ≡ [] → ⊥) }
{
    let mut bufs = Vec::new(alloc);
    for part in letter.parts.as_slice() {
        if is_made(state, problem, letter.to, part) {
            let buf = FieldBuf::zeros(alloc, state.layout(), letter.to, part.field, stamp)?;
            bufs.push(buf)?;
        }
    }
    Ok(Bufs::from_vec(bufs))
}
