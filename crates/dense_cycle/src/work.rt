//! Room for a stage.

ghost use Rattle.std.specs.Prelude.{◌≡◌, ℕ, [], IfOk, length, map, replicate};
ghost use Rattle.block_layout.specs.Layouts.{len};
ghost use Rattle.dense_cycle.specs.Work.{FitsWork};

use block_layout::Layout;
use cell_lists::Cells;
use dense_stage::FaceLists;
use mesh_num::NoMemory;
use std::alloc::Global;

/// What a stage of a field writes on the way: for each leaf its cells with their ghosts, and what passes its faces.
#[derive(Drop)]
pub(crate) struct Work {
    pub ghosts: Vec<Cells>,
    pub faces: FaceLists,
}

/// A list of zeros for each of so many leaves.
fn zero_lists(alloc: Global, layout: &Layout, leaves: u32) -> Result<Vec<Cells>, NoMemory>
    ensures { IfOk result (λ lists. lists.items ≡ replicate leaves (replicate (len layout.now) 0)) }
{
    let mut lists = Vec::with_capacity(alloc, leaves as usize)?;
    for leaf in 0..leaves {
        let cells = Cells::zeros(alloc, layout.len())?;
        lists.push(cells)?;
    }
    Ok(lists)
}

impl Work {
    /// Room for no leaf.
    pub(crate) fn empty(alloc: Global) -> Work
        ensures ghosts { result.ghosts.items ≡ [] }
        ensures right { result.faces.right.items ≡ [] }
        ensures left { result.faces.left.items ≡ [] }
    {
        let faces = FaceLists {
            right: Vec::new(alloc),
            left: Vec::new(alloc),
        };
        Work {
            ghosts: Vec::new(alloc),
            faces,
        }
    }

    /// Room for a mesh with so many leaves.
    pub(crate) fn new(alloc: Global, layout: &Layout, leaves: u32) -> Result<Work, NoMemory>
        ensures { IfOk result (FitsWork layout.now leaves) }
    {
        let ghosts = zero_lists(alloc, layout, leaves)?;
        let faces = FaceLists::zeros(alloc, layout, leaves)?;
        Ok(Work { ghosts, faces })
    }
}
