//! The decks of the runs, and the dumps of one row of four cells.

use std::alloc::{AllocError, Global};

/// The deck of the example `reflecting_faces.in` without its comments: four cells between reflecting faces, with 8 in
/// the first, of which each cell gives a fourth to the right in a cycle.
pub const ONE_BLOCK: &str = "<parthenon/mesh>
nx1 = 4
ix1_bc = reflecting
ox1_bc = reflecting
<parthenon/time>
nlim = 2
<whole>
denominator = 4
dump_every = 1
<field/a>
v1 = 1
<box/0>
field = a
lo1 = 0
hi1 = 0
amount = 8
";

/// An input laid out as Parthenon's are: two dyes in a square.
pub const TWO_DYES: &str = "# two dyes in a square, laid out after a Parthenon input
<parthenon/job>
problem_id = advection

<parthenon/mesh>
refinement = adaptive
numlevel = 3
nx1 = 64
x1min = -0.5
x1max = 0.5
ix1_bc = periodic
ox1_bc = periodic
nx2 = 64
x2min = -0.5
x2max = 0.5
ix2_bc = periodic
ox2_bc = periodic
nx3 = 1

<parthenon/meshblock>
nx1 = 16
nx2 = 16
nx3 = 1

<parthenon/time>
nlim = 20
tlim = 1.0        # not read here
integrator = rk2  # not read here

<parthenon/output0>
file_type = hdf5
dt = 0.05

<parthenon/sparse>
dealloc_count = 5

<Advection>
cfl = 0.45

<field/dye>
flags = Cell, Independent, FillGhost, WithFluxes, Sparse
ids = 1,2
v1 = 10
v2 = 10

<box/first>
field = dye_1
lo1 = 8
hi1 = 15
lo2 = 8
hi2 = 15
amount = 100

<box/second>
field = dye_2
lo1 = 40
hi1 = 47
lo2 = 40
hi2 = 47
amount = 50
";

/// A coarse block with 5 in its last cell, and two finer blocks on its right.
pub const GRADED_ROW: &str = "<parthenon/mesh>
nx1 = 8
refinement = static
numlevel = 2
ix1_bc = reflecting
ox1_bc = reflecting
<parthenon/meshblock>
nx1 = 4
<parthenon/time>
nlim = 1
<whole>
denominator = 5
<field/a>
flags = Cell,Independent,FillGhost,WithFluxes,Sparse
ids = 0
v1 = 1
<static/s>
level = 1
lo1 = 4
hi1 = 7
<box/0>
field = a_0
lo1 = 3
hi1 = 3
amount = 5
";

/// The same of a field that is stored everywhere.
pub const STORED_GRADED_ROW: &str = "<parthenon/mesh>
nx1 = 8
refinement = static
numlevel = 2
ix1_bc = reflecting
ox1_bc = reflecting
<parthenon/meshblock>
nx1 = 4
<parthenon/time>
nlim = 1
<whole>
denominator = 5
<field/a>
v1 = 1
<static/s>
level = 1
lo1 = 4
hi1 = 7
<box/0>
field = a
lo1 = 3
hi1 = 3
amount = 5
";

/// Two blocks, with 1 in the last cell of the left one, which never moves.
pub const TWO_BLOCKS: &str = "<parthenon/mesh>
nx1 = 8
ix1_bc = reflecting
ox1_bc = reflecting
<parthenon/meshblock>
nx1 = 4
<parthenon/time>
nlim = 10
<whole>
denominator = 4
<field/a>
flags = Cell,Independent,FillGhost,WithFluxes,Sparse
ids = 0
v1 = 1
<box/0>
field = a_0
lo1 = 3
hi1 = 3
amount = 1
";

/// A reaction that takes a tenth of one field to another.
pub const REACTION: &str = "<parthenon/mesh>
nx1 = 4
<parthenon/time>
nlim = 1
<field/a>
flags = Cell,Independent,Sparse
ids = 0
<field/b>
flags = Cell,Independent,Sparse
ids = 0
<box/0>
field = a_0
lo1 = 0
hi1 = 0
amount = 9
<reaction/r>
from = a_0
to = b_0
num = 1
den = 10
";

/// As many leaves as a tree may have, of which one is to be refined at the first cycle.
pub const FULL_TREE: &str = "<parthenon/mesh>
nx1 = 256
nx2 = 256
refinement = adaptive
numlevel = 4
<parthenon/meshblock>
nx1 = 4
nx2 = 4
<parthenon/time>
nlim = 1
<field/a>
flags = Cell,Independent,FillGhost,WithFluxes,Sparse
ids = 0
<static/s>
level = 2
<box/0>
field = a_0
lo1 = 0
hi1 = 0
lo2 = 0
hi2 = 0
amount = 16
<criterion/c>
field = a_0
method = peak
refine_tol = 0
derefine_tol = 0
";

/// A corner cell of 6 with finer blocks on its right and above.
pub const GRADED_SQUARE: &str = "<parthenon/mesh>
nx1 = 8
nx2 = 8
refinement = static
numlevel = 2
ix1_bc = reflecting
ox1_bc = reflecting
ix2_bc = reflecting
ox2_bc = reflecting
<parthenon/meshblock>
nx1 = 4
nx2 = 4
<parthenon/time>
nlim = 1
<whole>
denominator = 4
<field/a>
flags = Cell,Independent,FillGhost,WithFluxes,Sparse
ids = 0
v1 = 1
v2 = 1
<static/e>
level = 1
lo1 = 4
<static/n>
level = 1
hi1 = 3
lo2 = 4
<box/0>
field = a_0
lo1 = 3
hi1 = 3
lo2 = 3
hi2 = 3
amount = 6
";

/// One block that is refined at the first cycle for the 10 in its first cell.
pub const ADAPTIVE_ROW: &str = "<parthenon/mesh>
nx1 = 4
refinement = adaptive
numlevel = 2
ix1_bc = reflecting
ox1_bc = reflecting
<parthenon/time>
nlim = 6
<field/a>
flags = Cell,Independent,FillGhost,WithFluxes,Sparse
ids = 0
<box/0>
field = a_0
lo1 = 0
hi1 = 0
amount = 10
<criterion/c>
field = a_0
method = peak
refine_tol = 9
derefine_tol = 5
";

/// The history of the deck of one block.
pub const ONE_BLOCK_HISTORY: &str = "parthenon-whole history 1
cycle 0 field a total 8 in 0 out 0 made 0 used 0 blocks 1
cycle 1 field a total 8 in 0 out 0 made 0 used 0 blocks 1
cycle 2 field a total 8 in 0 out 0 made 0 used 0 blocks 1
end
";

/// The dump of a cycle of one field in four cells: this row, or none where all are zero.
pub fn dump(alloc: Global, cycle: u32, row: &str) -> Result<String, AllocError> {
    let mut text = String::from_str(alloc, "parthenon-whole dump 1\n")?;
    write!(text, "cycle {cycle}\n")?;
    text.push_str("dims 1 cells 4 1 1 root 1 1 1\nfields 1\na\nblocks 1\n")?;
    if row.is_empty() {
        text.push_str("block 0 level 0 at 0 0 0 zero 1\nend\n")?;
        return Ok(text);
    }
    text.push_str("block 0 level 0 at 0 0 0 zero 0\nfield a\n")?;
    write!(text, "{row}\nend\n")?;
    Ok(text)
}

/// A deck of four cells and one cycle with that many fields: the field after F others has 1000 * (F + 1)
/// in the first cell, of which a thousandth moves to the right.
pub fn many_fields(alloc: Global, count: u32) -> Result<String, AllocError> {
    let mut text = String::from_str(
        alloc,
        "<parthenon/mesh>\nnx1 = 4\n<parthenon/time>\nnlim = 1\n",
    )?;
    for field in 0..count {
        let amount = 1000 * (u64::from(field) + 1);
        write!(
            text,
            "<field/f{field}>\nv1 = 1\n<box/b{field}>\nfield = f{field}\n"
        )?;
        write!(text, "lo1 = 0\nhi1 = 0\namount = {amount}\n")?;
    }
    Ok(text)
}

/// The dump of that deck before or after its cycle.
pub fn many_fields_dump(alloc: Global, cycle: u32, count: u32) -> Result<String, AllocError> {
    let mut text = String::from_str(alloc, "parthenon-whole dump 1\n")?;
    write!(text, "cycle {cycle}\n")?;
    text.push_str("dims 1 cells 4 1 1 root 1 1 1\n")?;
    write!(text, "fields {count}\n")?;
    push_labels(&mut text, count)?;
    text.push_str("blocks 1\nblock 0 level 0 at 0 0 0 zero 0\n")?;
    push_rows(&mut text, cycle, count)?;
    text.push_str("end\n")?;
    Ok(text)
}

fn push_labels(text: &mut String, count: u32) -> Result<(), AllocError> {
    for field in 0..count {
        write!(text, "f{field}\n")?;
    }
    Ok(())
}

fn push_rows(text: &mut String, cycle: u32, count: u32) -> Result<(), AllocError> {
    for field in 0..count {
        let moved = u64::from(field) + 1;
        let (first, second) = if cycle == 0 {
            (1000 * moved, 0)
        } else {
            (999 * moved, moved)
        };
        write!(text, "field f{field}\n{first} {second} 0 0\n")?;
    }
    Ok(())
}

/// The deck of one block between static boxes, that many of them.
pub fn many_static_boxes(alloc: Global, count: u32) -> Result<String, AllocError> {
    let mut text = String::from_str(alloc, ONE_BLOCK)?;
    text.push_str("<parthenon/mesh>\nrefinement = static\nnumlevel = 2\n")?;
    for at in 0..count {
        write!(text, "<static/s{at}>\nlevel = 1\n")?;
    }
    Ok(text)
}

/// The small deck that is made of the seed 7.
pub const SEED_SEVEN: &str =
    "<parthenon/mesh>\nnx1 = 32\nnx2 = 32\nrefinement = adaptive\nnumlevel = 2\nderefine_count = 2\npack_size = 3\nix1_bc = periodic\nox1_bc = periodic\nix2_bc = reflecting\nox2_bc = reflecting\n<parthenon/meshblock>\nnx1 = 8\nnx2 = 8\n<parthenon/time>\nnlim = 12\n<whole>\ndenominator = 64\nnstages = 2\nrefine_every = 2\ndump_every = 4\n<field/s>\nflags = Cell,Independent,FillGhost,WithFluxes,Sparse\nids = 0,1,2,3,4,5,6,7\nv1 = -1\nv2 = 1\nk = 1\n<box/0>\nfield = s_0\nlo1 = 18\nhi1 = 19\nlo2 = 17\nhi2 = 18\namount = 1000\n<box/1>\nfield = s_1\nlo1 = 3\nhi1 = 4\nlo2 = 1\nhi2 = 2\namount = 1001\n<box/2>\nfield = s_2\nlo1 = 1\nhi1 = 2\nlo2 = 2\nhi2 = 3\namount = 1002\n<box/3>\nfield = s_3\nlo1 = 13\nhi1 = 14\nlo2 = 3\nhi2 = 4\namount = 1003\n<box/4>\nfield = s_4\nlo1 = 3\nhi1 = 4\nlo2 = 27\nhi2 = 28\namount = 1004\n<box/5>\nfield = s_5\nlo1 = 0\nhi1 = 1\nlo2 = 1\nhi2 = 2\namount = 1005\n<box/6>\nfield = s_6\nlo1 = 16\nhi1 = 17\nlo2 = 23\nhi2 = 24\namount = 1006\n<box/7>\nfield = s_7\nlo1 = 2\nhi1 = 3\nlo2 = 17\nhi2 = 18\namount = 1007\n<reaction/r>\nfrom = s_0\nto = s_1\nnum = 1\nden = 10\n<criterion/c>\nfield = s_0\nmethod = peak\nrefine_tol = 500\nderefine_tol = 50\n";
