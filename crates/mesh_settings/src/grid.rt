//! The keys of the blocks of the mesh, and the lattice of root blocks that follows.

ghost use Rattle.std.specs.Prelude.{◌≡◌, ◌≤◌, ◌/◌, IfOk};
ghost use Rattle.deck_values.specs.Reading.{Gives};
ghost use Rattle.mesh_settings.specs.Grid.{meshblock as meshblock_name, cells_along, cells_or_one, cells, grid, dims_of, shape_of, root_blocks};
ghost use Rattle.mesh_settings.specs.Mesh.{is_periodic};
ghost use Rattle.std.specs.List.{slice_index_or};
ghost use Rattle.mesh_settings.specs.Sound.{IsSize, IsFaces};
ghost use Rattle.mesh_settings.specs.Sound.{IsCellsAlong, IsCells, IsGrid};
ghost use Rattle.mesh_settings.specs.Limits.{greatest_size};

use crate::limits::{GREATEST_CELLS, GREATEST_ROOTS, LEAST_CELLS};
use crate::words::{FaceKind, Faces};
use deck_values::{BlockReader, ProblemFault};
use input_file::Deck;
use morton_order::Shape;
use std::alloc::Global;

/// The root blocks of a mesh, and the cells of each block along each axis.
#[derive(Clone, Copy)]
pub struct Grid {
    pub shape: Shape,
    pub cells: [u32; 3],
}

/// Reads the keys of the blocks of a mesh in order.
#[tactic(auto, unfolding(crate::specs::Grid::grid))]
pub fn read_grid(
    alloc: Global,
    deck: &Deck,
    size: [u32; 3],
    faces: &Faces,
) -> Result<Grid, ProblemFault>
    requires size { IsSize size }
    requires faces { IsFaces faces.now }
    ensures value { Gives result (grid deck.now size faces.now) }
    ensures sound { IfOk result (λ g. IsGrid size g.cells g.shape) }
{
    let meshblock = meshblock_reader(alloc, deck);
    let cells = read_cells(&meshblock, size)?;
    let blocks = root_blocks(size, cells);
    if blocks > GREATEST_ROOTS {
        return Err(meshblock.limit("blocks", i128::from(blocks)));
    }
    Ok(Grid {
        shape: shape_of(size, cells, faces),
        cells,
    })
}

#[tactic(auto, unfolding(crate::specs::Grid::meshblock))]
fn meshblock_reader<'a>(alloc: Global, deck: &'a Deck) -> BlockReader<'a>
    ensures deck { result.deck.now ≡ deck.now }
    ensures block { result.block.now ≡ meshblock_name }
{
    BlockReader::new(alloc, deck, "parthenon/meshblock")
}

#[tactic(auto, unfolding(crate::specs::Grid::cells))]
fn read_cells(meshblock: &BlockReader, size: [u32; 3]) -> Result<[u32; 3], ProblemFault>
    requires block { meshblock.now.block.now ≡ meshblock_name }
    requires size { IsSize size }
    ensures value { Gives result (cells meshblock.now.deck.now size) }
    ensures sound { IfOk result (IsCells size) }
{
    let n1 = read_cells_along(meshblock, "nx1", size[0])?;
    let n2 = read_cells_or_one(meshblock, "nx2", size[1])?;
    let n3 = read_cells_or_one(meshblock, "nx3", size[2])?;
    Ok([n1, n2, n3])
}

#[tactic(auto, unfolding(crate::specs::Grid::cells_along))]
fn read_cells_along(meshblock: &BlockReader, key: &str, size: u32) -> Result<u32, ProblemFault>
    requires block { meshblock.now.block.now ≡ meshblock_name }
    requires used { 2 ≤ size }
    ensures value { Gives result (cells_along meshblock.now.deck.now key.now size) }
    ensures sound { IfOk result (IsCellsAlong size) }
{
    let n = meshblock.number(key, LEAST_CELLS, GREATEST_CELLS, Some(u64::from(size)))? as u32;
    if n % 2 == 0 && size % n == 0 {
        Ok(n)
    } else {
        Err(meshblock.bad_value(key))
    }
}

#[tactic(auto, unfolding(crate::specs::Grid::cells_or_one))]
fn read_cells_or_one(meshblock: &BlockReader, key: &str, size: u32) -> Result<u32, ProblemFault>
    requires block { meshblock.now.block.now ≡ meshblock_name }
    requires some { 1 ≤ size }
    ensures value { Gives result (cells_or_one meshblock.now.deck.now key.now size) }
    ensures sound { IfOk result (IsCellsAlong size) }
{
    if size == 1 {
        let n = meshblock.number(key, 1, 1, Some(1))?;
        Ok(n as u32)
    } else {
        read_cells_along(meshblock, key, size)
    }
}

/// How many root blocks there are.
fn root_blocks(size: [u32; 3], cells: [u32; 3]) -> u64
    requires size { IsSize size }
    requires cells { IsCells size cells }
    ensures { result ≡ root_blocks size cells }
{
    roots_along(size[0], cells[0]) * roots_along(size[1], cells[1]) * roots_along(size[2], cells[2])
}

/// How many root blocks lie along an axis.
fn roots_along(size: u32, cells: u32) -> u64
    requires most { size ≤ greatest_size }
    requires cells { IsCellsAlong size cells }
    ensures value { result ≡ size / cells }
    ensures few { result ≤ 1048576 }
{
    u64::from(size / cells)
}

/// The lattice of the root blocks.
fn shape_of(size: [u32; 3], cells: [u32; 3], faces: &Faces) -> Shape
    requires size { IsSize size }
    requires cells { IsCells size cells }
    requires faces { IsFaces faces.now }
    ensures { result ≡ shape_of size cells faces.now }
{
    let dims = dims_of(size);
    Shape {
        dims,
        root: [size[0] / cells[0], size[1] / cells[1], size[2] / cells[2]],
        wrap: [
            wraps_at(faces, 0),
            dims > 1 && wraps_at(faces, 2),
            dims > 2 && wraps_at(faces, 4),
        ],
    }
}

/// How many axes are in use.
fn dims_of(size: [u32; 3]) -> u32
    requires { IsSize size }
    ensures value { result ≡ dims_of size }
    ensures least { 1 ≤ result }
    ensures most { result ≤ 3 }
{
    if size[1] == 1 {
        1
    } else if size[2] == 1 {
        2
    } else {
        3
    }
}

/// Whether the face at a place of the list is there and periodic.
fn wraps_at(faces: &Faces, at: usize) -> bool
    ensures { result ≡ is_periodic (slice_index_or faces.now at FaceKind.Outflow) }
{
    match faces.get(at) {
        Some(kind) => kind.is_periodic(),
        None => false,
    }
}
