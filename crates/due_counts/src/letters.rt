//! The letters that are due to each list.

ghost use Rattle.std.specs.Prelude.{◌≡◌, ◌≤◌, IfOk, length, slice_index};
ghost use Rattle.mesh_rules.specs.Mesh.{Mesh};
ghost use Rattle.mesh_rules.specs.Sums.{table};
ghost use Rattle.due_counts.specs.DueLetters.{AreDue, IsOnTree};

use crate::counts::Counts;
use crate::walk::count_all;
use block_tree::Tree;
use cycle_tables::Due;
use mesh_num::NoMemory;
use std::alloc::Global;

/// The letters of a stage.
#[derive(Debug, Drop)]
pub struct DueLetters {
    /// How many of either kind are due to each list.
    pub lists: Vec<Due>,
    /// How many letters of ghosts there are.
    pub ghosts: u32,
    /// How many letters of flux sums there are.
    pub fluxes: u32,
}

/// What is due to each list, by what is counted of either kind.
fn both(alloc: Global, ghosts: &[u32], fluxes: &[u32]) -> Result<Vec<Due>, NoMemory>
    requires { length fluxes.now ≡ length ghosts.now }
    ensures { IfOk result (λ due. due.items ≡ table (length ghosts.now)
        (λ i. record { ghosts = slice_index ghosts.now i; fluxes = slice_index fluxes.now i })) }
{
    let mut lists = Vec::with_capacity(alloc, ghosts.len())?;
    for i in 0..ghosts.len() {
        lists.push(Due {
            ghosts: ghosts[i],
            fluxes: fluxes[i],
        })?;
    }
    Ok(lists)
}

/// The letters that are due to lists of a size in each stage on a tree.
pub fn due_letters(alloc: Global, tree: &Tree, size: u32) -> Result<DueLetters, NoMemory>
    requires some { 1 ≤ size }
    requires most { size ≤ 65536 }
    ensures { IfOk result (λ due. (m : Mesh) → IsOnTree tree.now m → AreDue size m due) }
{
    let count = (tree.len() + size - 1) / size;
    let mut ghosts = Counts::new(alloc, count)?;
    let mut fluxes = Counts::new(alloc, count)?;
    count_all(tree, size, &mut ghosts, &mut fluxes);
    let lists = both(alloc, ghosts.each.as_slice(), fluxes.each.as_slice())?;
    Ok(DueLetters {
        lists,
        ghosts: ghosts.all,
        fluxes: fluxes.all,
    })
}
