//! Room that serves cycle after cycle.

ghost use Rattle.std.specs.Prelude.{◌≡◌, IfOk};
ghost use Rattle.block_layout.specs.Faces.{face_count};
ghost use Rattle.block_layout.specs.Layouts.{len};
ghost use Rattle.dense_cycle.specs.Work.{FitsWork, HasRoom};

use crate::work::Work;
use block_layout::Layout;
use mesh_num::NoMemory;
use std::alloc::Global;

/// What the stages of a cycle were made in: lists for so many leaves, each with so many cells and faces. It serves the
/// next cycle of a mesh with as many leaves of this size.
#[derive(Drop)]
pub struct Room {
    leaves: u32,
    cells: usize,
    faces: usize,
    work: Work,
    ghost holds: { HasRoom leaves cells faces work },
}

impl Room {
    /// No lists yet, as before the first cycle.
    pub fn empty(alloc: Global) -> Room {
        Room {
            leaves: 0,
            cells: 0,
            faces: 0,
            work: Work::empty(alloc),
        }
    }

    /// The room of a mesh with so many leaves.
    pub(crate) fn of(layout: &Layout, leaves: u32, work: Work) -> Room
        requires { FitsWork layout.now leaves work }
        ensures leaves { result.leaves ≡ leaves }
        ensures cells { result.cells ≡ len layout.now }
        ensures faces { result.faces ≡ face_count layout.now }
    {
        Room {
            leaves,
            cells: layout.len(),
            faces: layout.face_count(),
            work,
        }
    }

    /// The lists for the stages on a mesh with so many leaves: those in the room where they fit, or new ones.
    pub(crate) fn refit(self, alloc: Global, layout: &Layout, leaves: u32) -> Result<Work, NoMemory>
        ensures { IfOk result (FitsWork layout.now leaves) }
    {
        let room = self;
        if room.leaves != leaves {
            return Work::new(alloc, layout, leaves);
        }
        if room.cells != layout.len() || room.faces != layout.face_count() {
            return Work::new(alloc, layout, leaves);
        }
        Ok(room.work)
    }
}
