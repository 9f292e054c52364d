//! The keys of the mesh: its size, how it is refined, and its faces.

ghost use Rattle.std.specs.Prelude.{◌≡◌, ◌≤◌, [], ◌∷◌, IfOk, IfSome, Ok};
ghost use Rattle.deck_values.specs.Reading.{Gives};
ghost use Rattle.mesh_settings.specs.Mesh.{mesh as mesh_block, size1, size2, size3};
ghost use Rattle.mesh_settings.specs.Mesh.{refinement, numlevel};
ghost use Rattle.mesh_settings.specs.Mesh.{derefine_count, pack_size};
ghost use Rattle.mesh_settings.specs.Mesh.{face, face_pair, faces};
ghost use Rattle.mesh_settings.specs.Mesh.{size, refining, mesh_keys, levels_in, is_periodic};
ghost use Rattle.mesh_settings.specs.Sound.{IsSize, IsRefining, IsFaces};
ghost use Rattle.mesh_settings.specs.Limits.{greatest_size, least_cells, greatest_levels, greatest_derefine_count, greatest_pack};

use crate::limits::{
    GREATEST_DEREFINE_COUNT, GREATEST_LEVELS, GREATEST_PACK, GREATEST_SIZE, LEAST_CELLS,
};
use crate::words::{FaceKind, Faces, Mode};
use deck_values::{BlockReader, ProblemFault};
use input_file::Deck;
use package_fields::Items;
use std::alloc::Global;

/// How a mesh is refined and partitioned.
#[derive(Clone, Copy)]
pub struct Refining {
    pub mode: Mode,
    pub levels: u32,
    pub derefine_count: u32,
    pub pack_size: Option<u32>,
}

/// What the keys of the mesh say.
#[derive(Drop)]
pub struct Mesh {
    pub size: [u32; 3],
    pub refining: Refining,
    pub faces: Faces,
}

/// Reads the keys of the mesh in order.
#[tactic(auto, unfolding(crate::specs::Mesh::mesh_keys))]
pub fn read_mesh_keys(alloc: Global, deck: &Deck) -> Result<Mesh, ProblemFault>
    ensures value { Gives result (mesh_keys deck.now) }
    ensures size { IfOk result (λ m. IsSize m.size) }
    ensures refining { IfOk result (λ m. IsRefining m.refining) }
    ensures faces { IfOk result (λ m. IsFaces m.faces) }
{
    let mesh = mesh_reader(alloc, deck);
    let size = read_size(&mesh)?;
    let refining = read_refining(&mesh)?;
    let faces = read_faces(&mesh)?;
    Ok(Mesh {
        size,
        refining,
        faces,
    })
}

#[tactic(auto, unfolding(crate::specs::Mesh::mesh))]
fn mesh_reader<'a>(alloc: Global, deck: &'a Deck) -> BlockReader<'a>
    ensures deck { result.deck.now ≡ deck.now }
    ensures block { result.block.now ≡ mesh_block }
{
    BlockReader::new(alloc, deck, "parthenon/mesh")
}

#[tactic(auto, unfolding(crate::specs::Mesh::size))]
fn read_size(mesh: &BlockReader) -> Result<[u32; 3], ProblemFault>
    requires { mesh.now.block.now ≡ mesh_block }
    ensures value { Gives result (size mesh.now.deck.now) }
    ensures sound { IfOk result IsSize }
{
    let n1 = read_size1(mesh)?;
    let n2 = read_size2(mesh)?;
    let n3 = read_size3(mesh, n2)?;
    Ok([n1, n2, n3])
}

#[tactic(auto, unfolding(crate::specs::Mesh::size1))]
fn read_size1(mesh: &BlockReader) -> Result<u32, ProblemFault>
    requires { mesh.now.block.now ≡ mesh_block }
    ensures value { Gives result (size1 mesh.now.deck.now) }
    ensures least { IfOk result (λ n. least_cells ≤ n) }
    ensures greatest { IfOk result (λ n. n ≤ greatest_size) }
{
    let n = mesh.number("nx1", LEAST_CELLS, GREATEST_SIZE, None)?;
    Ok(n as u32)
}

#[tactic(auto, unfolding(crate::specs::Mesh::size2))]
fn read_size2(mesh: &BlockReader) -> Result<u32, ProblemFault>
    requires { mesh.now.block.now ≡ mesh_block }
    ensures value { Gives result (size2 mesh.now.deck.now) }
    ensures least { IfOk result (λ n. 1 ≤ n) }
    ensures used { IfOk result (λ n. 2 ≤ n → least_cells ≤ n) }
    ensures greatest { IfOk result (λ n. n ≤ greatest_size) }
{
    let n = mesh.number_or_one("nx2", LEAST_CELLS, GREATEST_SIZE, Some(1))?;
    Ok(n as u32)
}

#[tactic(auto, unfolding(crate::specs::Mesh::size3))]
fn read_size3(mesh: &BlockReader, n2: u32) -> Result<u32, ProblemFault>
    requires { mesh.now.block.now ≡ mesh_block }
    ensures value { Gives result (size3 mesh.now.deck.now n2) }
    ensures least { IfOk result (λ n. 1 ≤ n) }
    ensures used { IfOk result (λ n. 2 ≤ n → least_cells ≤ n) }
    ensures greatest { IfOk result (λ n. n ≤ greatest_size) }
    ensures flat { IfOk result (λ n. n2 ≡ 1 → n ≡ 1) }
{
    if n2 == 1 {
        let n = mesh.number("nx3", 1, 1, Some(1))?;
        Ok(n as u32)
    } else {
        let n = mesh.number_or_one("nx3", LEAST_CELLS, GREATEST_SIZE, Some(1))?;
        Ok(n as u32)
    }
}

#[tactic(auto, unfolding(crate::specs::Mesh::refining))]
fn read_refining(mesh: &BlockReader) -> Result<Refining, ProblemFault>
    requires { mesh.now.block.now ≡ mesh_block }
    ensures value { Gives result (refining mesh.now.deck.now) }
    ensures sound { IfOk result IsRefining }
{
    let mode = read_refinement(mesh)?;
    let n = read_numlevel(mesh)?;
    let derefine_count = read_derefine_count(mesh)?;
    let pack_size = read_pack_size(mesh)?;
    Ok(Refining {
        mode,
        levels: levels_in(mode, n),
        derefine_count,
        pack_size,
    })
}

/// How many levels there are: one where nothing is refined.
fn levels_in(mode: Mode, n: u32) -> u32
    ensures { result ≡ levels_in mode n }
{
    match mode {
        Mode::Plain => 1,
        Mode::Fixed => n,
        Mode::Adaptive => n,
    }
}

#[tactic(auto, unfolding(crate::specs::Mesh::refinement))]
fn read_refinement(mesh: &BlockReader) -> Result<Mode, ProblemFault>
    requires { mesh.now.block.now ≡ mesh_block }
    ensures { Gives result (refinement mesh.now.deck.now) }
{
    match mesh.text("refinement") {
        None => Ok(Mode::Plain),
        Some(name) => match Mode::named(name) {
            Some(mode) => Ok(mode),
            None => Err(mesh.bad_value("refinement")),
        },
    }
}

#[tactic(auto, unfolding(crate::specs::Mesh::numlevel))]
fn read_numlevel(mesh: &BlockReader) -> Result<u32, ProblemFault>
    requires { mesh.now.block.now ≡ mesh_block }
    ensures value { Gives result (numlevel mesh.now.deck.now) }
    ensures least { IfOk result (λ n. 1 ≤ n) }
    ensures greatest { IfOk result (λ n. n ≤ greatest_levels) }
{
    let n = mesh.number("numlevel", 1, GREATEST_LEVELS, Some(1))?;
    Ok(n as u32)
}

#[tactic(auto, unfolding(crate::specs::Mesh::derefine_count))]
fn read_derefine_count(mesh: &BlockReader) -> Result<u32, ProblemFault>
    requires { mesh.now.block.now ≡ mesh_block }
    ensures value { Gives result (derefine_count mesh.now.deck.now) }
    ensures least { IfOk result (λ n. 1 ≤ n) }
    ensures greatest { IfOk result (λ n. n ≤ greatest_derefine_count) }
{
    let n = mesh.number("derefine_count", 1, GREATEST_DEREFINE_COUNT, Some(10))?;
    Ok(n as u32)
}

#[tactic(auto, unfolding(crate::specs::Mesh::pack_size, deck_values::specs::BlockReader::signed))]
fn read_pack_size(mesh: &BlockReader) -> Result<Option<u32>, ProblemFault>
    requires { mesh.now.block.now ≡ mesh_block }
    ensures value { Gives result (pack_size mesh.now.deck.now) }
    ensures within { IfOk result (λ pack. IfSome pack (λ n. (1 ≤ n) × (n ≤ greatest_pack))) }
{
    let n = mesh.signed_at("pack_size", 16)?;
    match n {
        -1 => Ok(None),
        1..=GREATEST_PACK => Ok(Some(n as u32)),
        _ => Err(mesh.limit("pack_size", n)),
    }
}

#[tactic(auto, unfolding(crate::specs::Mesh::faces))]
fn read_faces(mesh: &BlockReader) -> Result<Faces, ProblemFault>
    requires { mesh.now.block.now ≡ mesh_block }
    ensures value { Gives result (faces mesh.now.deck.now) }
    ensures sound { IfOk result IsFaces }
{
    let x1 = read_face_pair(mesh, "ix1_bc", "ox1_bc")?;
    let x2 = read_face_pair(mesh, "ix2_bc", "ox2_bc")?;
    let x3 = read_face_pair(mesh, "ix3_bc", "ox3_bc")?;
    faces_of(mesh.alloc, x1, x2, x3)
}

/// The faces of three axes.
fn faces_of(
    alloc: Global,
    x1: (FaceKind, FaceKind),
    x2: (FaceKind, FaceKind),
    x3: (FaceKind, FaceKind),
) -> Result<Faces, ProblemFault>
    ensures { Gives result (Ok (x1.0 ∷ x1.1 ∷ x2.0 ∷ x2.1 ∷ x3.0 ∷ x3.1 ∷ [])) }
{
    let kinds = vec![in alloc; x1.0, x1.1, x2.0, x2.1, x3.0, x3.1]?;
    Ok(Items::from_vec(kinds))
}

#[tactic(auto, unfolding(crate::specs::Mesh::face_pair))]
fn read_face_pair(
    mesh: &BlockReader,
    low: &str,
    high: &str,
) -> Result<(FaceKind, FaceKind), ProblemFault>
    requires { mesh.now.block.now ≡ mesh_block }
    ensures value { Gives result (face_pair mesh.now.deck.now low.now high.now) }
    ensures alike { IfOk result (λ pair. is_periodic pair.0 ≡ is_periodic pair.1) }
{
    let l = read_face(mesh, low)?;
    let h = read_face(mesh, high)?;
    if l.is_periodic() == h.is_periodic() {
        Ok((l, h))
    } else {
        Err(mesh.bad_value(high))
    }
}

#[tactic(auto, unfolding(crate::specs::Mesh::face))]
fn read_face(mesh: &BlockReader, key: &str) -> Result<FaceKind, ProblemFault>
    requires { mesh.now.block.now ≡ mesh_block }
    ensures { Gives result (face mesh.now.deck.now key.now) }
{
    match mesh.text(key) {
        None => Ok(FaceKind::Periodic),
        Some(name) => match FaceKind::named(name) {
            Some(kind) => Ok(kind),
            None => Err(mesh.bad_value(key)),
        },
    }
}
