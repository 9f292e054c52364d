//! Letters across the sides of blocks.

ghost use Rattle.std.specs.Prelude.{◌≡◌, ◌<◌, ◌++◌, ◌∷◌, [], IfOk, OnOk, All, map};
ghost use Rattle.cycle_kernels.specs.Laws.{IsCycleMesh};
ghost use Rattle.task_meshes.specs.Meshes.{leaf_count, mesh_of};
ghost use Rattle.task_meshes.specs.Orders.{BufsRise};
ghost use Rattle.sent_letters.specs.Sent.{CanSend, MaySend, MaySendTo, letter_by, letter_from};
ghost use Rattle.sent_letters.specs.Sent.{letters_of_block, letters_over, letters_sent};

use crate::block_sender::BlockSender;
use crate::parts::parts_to;
use crate::receivers::{Receivers, due_across};
use block_tree::FineLeaves;
use cell_lists::NoMemory;
use field_bufs::FieldBuf;
use ghost_buffers::Letter;
use morton_order::Side;
use package_fields::Items;
use std::alloc::Global;
use task_meshes::{LetterKind, TaskMesh, blocks_of, bufs_of, way_between};

/// Letters in order.
pub type Letters = Items<Letter>;

/// Sends a letter to a leaf, across a side of it.
fn send_letter(
    alloc: Global,
    from: &BlockSender,
    side: Side,
    to: u32,
    sent: &mut Letters,
) -> Result<(), NoMemory>
    requires { MaySendTo from.now side to }
    ensures { OnOk result (sent.new ≡ sent.old ++ letter_from from.now side to ∷ []) }
{
    let way = way_between(from.on, from.block, to, side);
    let parts = parts_to(alloc, from, way, side, to)?;
    sent.push(Letter {
        number: 0,
        flux: from.kind.is_flux(),
        stage: from.stage,
        from: from.block,
        to,
        side,
        parts,
    })?;
    Ok(())
}

/// Sends a letter to each of some finer leaves.
fn send_finer(
    alloc: Global,
    from: &BlockSender,
    side: Side,
    tos: &FineLeaves,
    sent: &mut Letters,
) -> Result<(), NoMemory>
    requires { All (MaySendTo from.now side) tos.now }
    ensures { OnOk result (sent.new ≡ sent.old ++ map (letter_from from.now side) tos.now) }
{
    for k in 0..tos.len() {
        let to = tos.get(k).unwrap();
        send_letter(alloc, from, side, to, sent)?;
    }
    Ok(())
}

/// Sends the letters that are due across a side of their receivers.
fn send_across(
    alloc: Global,
    from: &BlockSender,
    side: Side,
    sent: &mut Letters,
) -> Result<(), NoMemory>
    requires may { MaySend from.now }
    requires axis { side.axis < from.now.on.now.tree.now.shape.dims }
    ensures { OnOk result (sent.new ≡ sent.old ++ map (letter_by from.now) (letters_over from.now side)) }
{
    match due_across(from, side) {
        Receivers::Nobody => Ok(()),
        Receivers::One(to) => send_letter(alloc, from, side, to, sent),
        Receivers::Finer(tos) => send_finer(alloc, from, side, &tos, sent),
    }
}

/// Sends the letters of a block, across its low and its high side of each axis.
fn send_block(alloc: Global, from: &BlockSender, sent: &mut Letters) -> Result<(), NoMemory>
    requires { MaySend from.now }
    ensures { OnOk result (sent.new ≡ sent.old ++ map (letter_by from.now) (letters_of_block from.now)) }
{
    for axis in 0..from.on.tree.shape().dims {
        send_across(alloc, from, Side { axis, high: true }, sent)?;
        send_across(alloc, from, Side { axis, high: false }, sent)?;
    }
    Ok(())
}

/// Makes the letters that a task of a list sends, in the order in which they are due: for each block of the list, each
/// of its sides, and each leaf behind it that is due one. A letter has a part for each buffer of its sender, by rising
/// field, and the number 0.
///
/// `bufs` are the buffers of the list's blocks that the task was lent, by block, then field.
pub fn send_letters(
    alloc: Global,
    on: &TaskMesh,
    kind: LetterKind,
    list: u32,
    stage: u32,
    bufs: &[FieldBuf],
) -> Result<Letters, NoMemory>
    requires mesh { IsCycleMesh (mesh_of on.now) }
    requires rise { BufsRise bufs.now }
    requires can { CanSend kind (mesh_of on.now) list bufs.now }
    ensures { IfOk result (λ sent. sent ≡ letters_sent kind (mesh_of on.now) list stage bufs.now) }
{
    let blocks = blocks_of(on, list);
    let mut sent = Items::new(alloc);
    for block in blocks.first..blocks.end {
        let range = bufs_of(bufs, block);
        let from = BlockSender {
            on,
            kind,
            stage,
            block,
            bufs: &bufs[range.start..range.end],
        };
        send_block(alloc, &from, &mut sent)?;
    }
    Ok(sent)
}
