//! The blocks of a list of tasks, and the faces of the domain that they have.

ghost use Rattle.std.specs.Prelude.{◌≡◌, ◌==◌, ℕ, ◌<◌, ◌≤◌, ◌&&◌, nat_le, nat_lt};
ghost use Rattle.cycle_kernels.specs.Blocks.{is_domain_face, owner_of};
ghost use Rattle.cycle_kernels.specs.Laws.{IsCycleMesh};
ghost use Rattle.task_meshes.specs.Meshes.{leaf_count, mesh_of};

use crate::mesh::TaskMesh;
use block_tree::Behind;
use morton_order::Side;

/// Blocks by their numbers.
#[derive(Clone, Copy)]
pub struct Blocks {
    pub first: u32,
    /// The number after the last one's.
    pub end: u32,
}

/// The blocks of a list of tasks: those of its partition.
pub fn blocks_of(on: &TaskMesh, list: u32) -> Blocks
    requires { IsCycleMesh (mesh_of on.now) }
    ensures ordered { result.first ≤ result.end }
    ensures within { result.end ≤ leaf_count on.now }
    ensures owned { (b : ℕ) → b < leaf_count on.now
        → (owner_of (mesh_of on.now) b == list) ≡ (nat_le result.first b && nat_lt b result.end) }
{
    let leaves = on.tree.len();
    let size = u64::from(on.problem.pack_size.unwrap_or(leaves));
    let first = u64::from(list) * size;
    let end = (first + size).min(u64::from(leaves));
    Blocks {
        first: first.min(u64::from(leaves)) as u32,
        end: end as u32,
    }
}

/// Whether a side of a block is a face of the domain.
pub fn is_outside(on: &TaskMesh, block: u32, side: Side) -> bool
    requires block { block < leaf_count on.now }
    requires axis { side.axis < on.now.tree.now.shape.dims }
    ensures { result ≡ is_domain_face (mesh_of on.now) block side.axis side.high }
{
    match on.tree.behind(block, side) {
        Behind::Outside => true,
        Behind::Same(_) => false,
        Behind::Coarse(_) => false,
        Behind::Fine(_) => false,
    }
}
