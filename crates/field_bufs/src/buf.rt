//! A buffer, and lists of them.

ghost use Rattle.std.specs.Prelude.{◌≡◌, IfOk};
ghost use Rattle.block_layout.specs.Faces.{face_count};
ghost use Rattle.block_layout.specs.Layouts.{len};

use block_layout::Layout;
use cell_lists::Cells;
use mesh_num::NoMemory;
use package_fields::Items;
use std::alloc::Global;

/// What a block holds of a field: the totals of its cells with their ghosts, x1 fastest, and what passes their faces
/// to the right and to the left, those of x1 first.
#[derive(Debug, Drop)]
pub struct FieldBuf {
    /// The number of the block.
    pub block: u32,
    /// The number of the field.
    pub field: u32,
    /// How often the block was changed in the cycle.
    pub stamp: u32,
    /// The totals, two layers of ghosts at each side included.
    pub cells: Cells,
    /// What passes each face to the right.
    pub right: Cells,
    /// What passes each face to the left.
    pub left: Cells,
}

/// Buffers in order.
pub type Bufs = Items<FieldBuf>;

impl FieldBuf {
    ghost use Rattle.field_bufs.specs.Buffers.{zeros};

    /// The buffer of a field on a block with nothing in its cells and nothing through its faces.
    pub fn zeros(
        alloc: Global,
        layout: &Layout,
        block: u32,
        field: u32,
        stamp: u32,
    ) -> Result<FieldBuf, NoMemory>
        ensures { IfOk result (λ buf. buf ≡ zeros (len layout.now) (face_count layout.now) block field stamp) }
    {
        let cells = Cells::zeros(alloc, layout.len())?;
        let right = Cells::zeros(alloc, layout.face_count())?;
        let left = Cells::zeros(alloc, layout.face_count())?;
        Ok(FieldBuf {
            block,
            field,
            stamp,
            cells,
            right,
            left,
        })
    }
}
