//! The sizes of a block, and where its cells and faces lie.

ghost use Rattle.std.specs.Prelude.{◌≡◌, ◌≤◌, ◌<◌, slice_index};
ghost use Rattle.block_layout.specs.Sizes.{IsLayout};

use problem_set::Problem;

/// How the cells of a block, with two layers of ghosts at each side of each axis in use, lie in a list, x1 fastest.
#[derive(Clone, Copy)]
pub struct Layout {
    /// How many axes are in use.
    pub dims: u32,
    /// The cells of a block along x1, x2 and x3, without ghosts; 1 along an axis that is not in use.
    pub cells: [u32; 3],
    pub ghost sound: { IsLayout dims cells },
}

impl Layout {
    ghost use Rattle.block_layout.specs.Indices.{IsWithin};
    ghost use Rattle.block_layout.specs.Layouts.{ghost_layers, interior_len as interior_size, len, place, width, widths};
    ghost use Rattle.block_layout.specs.Faces.{face_count as count_of_faces, face_extents, face_number as number_of_face, faces_along as count_along, first_face as first_number};

    /// The layout of the blocks of a problem.
    pub fn of(problem: &Problem) -> Layout
        ensures dims { result.dims ≡ problem.now.shape.dims }
        ensures cells { result.cells ≡ problem.now.cells }
    {
        Layout {
            dims: problem.shape.dims,
            cells: problem.cells,
        }
    }

    /// The layers of ghosts at each side of an axis: two where it is in use.
    pub fn ghost_layers(&self, axis: u32) -> usize
        ensures { result ≡ ghost_layers self.now axis }
    {
        if axis < self.dims { 2 } else { 0 }
    }

    /// The cells along an axis, with ghosts.
    pub fn width(&self, axis: u32) -> usize
        requires { axis < 3 }
        ensures value { result ≡ width self.now axis }
        ensures least { 1 ≤ result }
        ensures most { result ≤ 68 }
    {
        self.cells[axis as usize] as usize + 2 * self.ghost_layers(axis)
    }

    /// How many cells a block has, with ghosts.
    pub fn len(&self) -> usize
        ensures value { result ≡ len self.now }
        ensures most { result ≤ 314_432 }
    {
        self.width(0) * self.width(1) * self.width(2)
    }

    /// Where the cell of an index lies in the list of a block. The index counts from the first ghost, along x1, x2 and
    /// x3.
    pub fn at(&self, i: [u32; 3]) -> usize
        requires { IsWithin (widths self.now) i }
        ensures value { result ≡ place self.now i }
        ensures within { result < len self.now }
    {
        i[0] as usize + self.width(0) * (i[1] as usize + self.width(1) * i[2] as usize)
    }

    /// How many cells a block has, without ghosts.
    pub fn interior_len(&self) -> usize
        ensures value { result ≡ interior_size self.now }
        ensures most { result ≤ 262_144 }
    {
        self.cells[0] as usize * self.cells[1] as usize * self.cells[2] as usize
    }

    /// The faces along an axis in the box of the faces that are normal to another one: as many as cells, and one more
    /// along the axis itself.
    fn face_extent(&self, axis: u32, along: u32) -> usize
        requires axis { axis < 3 }
        requires along { along < 3 }
        ensures value { result ≡ slice_index (face_extents self.now axis) along }
        ensures most { result ≤ 65 }
    {
        let cells = self.cells[along as usize] as usize;
        if axis == along { cells + 1 } else { cells }
    }

    /// How many faces are normal to an axis, none where it is not in use.
    pub fn faces_along(&self, axis: u32) -> usize
        requires { axis < 3 }
        ensures value { result ≡ count_along self.now axis }
        ensures most { result ≤ 274_625 }
    {
        if axis < self.dims {
            self.face_extent(axis, 0) * self.face_extent(axis, 1) * self.face_extent(axis, 2)
        } else {
            0
        }
    }

    /// The number of the first face that is normal to an axis.
    pub fn first_face(&self, axis: u32) -> usize
        requires { axis < 3 }
        ensures value { result ≡ first_number self.now axis }
        ensures most { result ≤ 549_250 }
    {
        match axis {
            0 => 0,
            1 => self.faces_along(0),
            _ => self.faces_along(0) + self.faces_along(1),
        }
    }

    /// How many faces the cells of a block have, along all axes.
    pub fn face_count(&self) -> usize
        ensures value { result ≡ count_of_faces self.now }
        ensures most { result ≤ 823_875 }
    {
        self.faces_along(0) + self.faces_along(1) + self.faces_along(2)
    }

    /// The number of the face below a cell along an axis. The index counts interior cells from 0; one past the last
    /// cell along the axis it names the faces at the high side.
    pub fn face_at(&self, axis: u32, i: [u32; 3]) -> usize
        requires axis { axis < self.now.dims }
        requires within { IsWithin (face_extents self.now axis) i }
        ensures value { result ≡ number_of_face self.now axis i }
        ensures within { result < count_of_faces self.now }
    {
        let rows = i[1] as usize + self.face_extent(axis, 1) * i[2] as usize;
        self.first_face(axis) + (i[0] as usize + self.face_extent(axis, 0) * rows)
    }
}
