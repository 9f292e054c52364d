//! What passes the faces of the leaves of a mesh.

ghost use Rattle.std.specs.Prelude.{IfOk};
ghost use Rattle.dense_stage.specs.Faces.{AreFaceLists, AreListsOf};

use block_layout::Layout;
use cell_lists::{Cells, NoMemory};
use std::alloc::Global;

/// What passes the faces of each leaf of a mesh, to the right and to the left: for each leaf a list of the faces of
/// its block, those of x1 first.
#[derive(Drop)]
pub struct FaceLists {
    /// By leaf, what passes each face to the right.
    pub right: Vec<Cells>,
    /// By leaf, what passes each face to the left.
    pub left: Vec<Cells>,
}

/// So many lists of so many zeros.
fn zero_lists(alloc: Global, size: usize, leaves: u32) -> Result<Vec<Cells>, NoMemory>
    ensures { IfOk result (λ lists. AreListsOf size leaves lists.items) }
{
    let mut lists = Vec::with_capacity(alloc, leaves as usize)?;
    for _ in 0..leaves {
        lists.push(Cells::zeros(alloc, size)?)?;
    }
    Ok(lists)
}

impl FaceLists {
    /// Lists with nothing at any face.
    pub fn zeros(alloc: Global, layout: &Layout, leaves: u32) -> Result<FaceLists, NoMemory>
        ensures { IfOk result (AreFaceLists layout.now leaves) }
    {
        let right = zero_lists(alloc, layout.face_count(), leaves)?;
        let left = zero_lists(alloc, layout.face_count(), leaves)?;
        Ok(FaceLists { right, left })
    }
}
