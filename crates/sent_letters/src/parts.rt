//! The parts of a letter.

ghost use Rattle.std.specs.Prelude.{◌≡◌, ◌<◌, IfOk, map};
ghost use Rattle.cycle_kernels.specs.Letters.{how_sent, part_covered};
ghost use Rattle.task_meshes.specs.Meshes.{mesh_of};
ghost use Rattle.sent_letters.specs.Sent.{MayMakePart, MayMakeParts, letter_to, part_made, part_sent};

use crate::block_sender::BlockSender;
use cell_lists::{Cells, NoMemory};
use field_bufs::FieldBuf;
use flux_correct::gather;
use ghost_buffers::{Part, Parts, fill};
use morton_order::Side;
use package_fields::Items;
use std::alloc::Global;
use task_meshes::{LetterKind, Way};

/// Makes a buffer's part of a letter. `side` is the receiver's.
fn part_of(
    alloc: Global,
    from: &BlockSender,
    way: Way,
    side: Side,
    to: u32,
    buf: &FieldBuf,
) -> Result<Cells, NoMemory>
    requires axis { side.axis < from.now.on.now.layout.now.dims }
    requires how { way.how ≡ how_sent (mesh_of from.now.on.now) (letter_to from.now side to) }
    requires half { way.half ≡ part_covered (mesh_of from.now.on.now) (letter_to from.now side to) }
    requires few { way.half < 4 }
    requires may { MayMakePart from.now.kind (mesh_of from.now.on.now) (letter_to from.now side to) buf.now }
    ensures { IfOk result (λ cells. cells
        ≡ part_made from.now.kind (mesh_of from.now.on.now) (letter_to from.now side to) buf.now) }
{
    let own = Side {
        axis: side.axis,
        high: !side.high,
    };
    match from.kind {
        LetterKind::Ghosts => fill(
            alloc,
            from.on.layout,
            way.how,
            own,
            way.half,
            buf.cells.as_slice(),
        ),
        LetterKind::Fluxes => gather(
            alloc,
            from.on.layout,
            own,
            buf.right.as_slice(),
            buf.left.as_slice(),
        ),
    }
}

/// Makes the parts of a letter, one of each buffer. `side` is the receiver's.
pub(crate) fn parts_to(
    alloc: Global,
    from: &BlockSender,
    way: Way,
    side: Side,
    to: u32,
) -> Result<Parts, NoMemory>
    requires axis { side.axis < from.now.on.now.layout.now.dims }
    requires how { way.how ≡ how_sent (mesh_of from.now.on.now) (letter_to from.now side to) }
    requires half { way.half ≡ part_covered (mesh_of from.now.on.now) (letter_to from.now side to) }
    requires few { way.half < 4 }
    requires may { MayMakeParts from.now.kind (mesh_of from.now.on.now) (letter_to from.now side to) from.now.bufs.now }
    ensures { IfOk result (λ parts. parts
        ≡ map (part_sent from.now.kind (mesh_of from.now.on.now) (letter_to from.now side to)) from.now.bufs.now) }
{
    let mut parts = Items::new(alloc);
    for k in 0..from.bufs.len() {
        let cells = part_of(alloc, from, way, side, to, &from.bufs[k])?;
        let field = from.bufs[k].field;
        parts.push(Part { field, cells })?;
    }
    Ok(parts)
}
