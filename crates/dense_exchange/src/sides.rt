//! The ghosts beyond one side of a leaf.

ghost use Rattle.std.specs.Prelude.{◌≡◌, ◌≢◌, ◌<◌, ◌||◌, IfOk, OnOk, All, map};
ghost use Rattle.mesh_rules.specs.Mask.{some_above};
ghost use Rattle.std.specs.List.{list_any};
ghost use Rattle.block_tree.specs.Behind.{fine, outside, same};
ghost use Rattle.ghost_buffers.specs.declared.part.How.TheVariants.{Same};
ghost use Rattle.dense_exchange.specs.FieldMeshes.{CanExchange, HoldOwn, leaf_count, leaf_on};
ghost use Rattle.dense_exchange.specs.Sides.{IsFilled, IsReceived, IsSender, behind_leaf, comes_beyond, sent_to};

use crate::field_mesh::FieldMesh;
use crate::parts::{has_above, side_part};
use crate::writes::{copy_layers, give_outside, give_part};
use block_tree::{Behind, FineLeaves};
use bound_faces::ghost_of;
use cell_lists::{Cells, NoMemory};
use ghost_buffers::{How, fill};
use morton_order::Side;
use std::alloc::Global;
use std::mem;

/// Fills the ghosts of a leaf that a sender behind its side gives, and answers whether a total above the threshold
/// comes.
fn receive(
    alloc: Global,
    on: &FieldMesh,
    how: How,
    half: u32,
    side: Side,
    from: u32,
    to: u32,
    ghosts: &mut Vec<Cells>,
) -> Result<bool, NoMemory>
    requires on { CanExchange on.now }
    requires axis { side.axis < on.now.layout.now.dims }
    requires half { half < 4 }
    requires from { from < leaf_count on.now }
    requires to { to < leaf_count on.now }
    requires sender { IsSender on.now how half side from to }
    requires ghosts { HoldOwn on.now ghosts.old.items }
    ensures received { OnOk result (IsReceived on.now how half side from to ghosts.old.items ghosts.new.items) }
    ensures above { IfOk result (λ above. above
        ≡ some_above on.now.problem.now.alloc_threshold (sent_to on.now side from to)) }
{
    let opposite = Side {
        axis: side.axis,
        high: !side.high,
    };
    let part = fill(
        alloc,
        on.layout,
        how,
        opposite,
        half,
        ghosts[from as usize].as_slice(),
    )?;
    give_part(
        on.layout,
        how,
        side,
        half,
        part.as_slice(),
        &mut ghosts[to as usize],
    );
    Ok(has_above(part.as_slice(), on.problem.alloc_threshold))
}

/// Fills the ghosts of a leaf beyond a face of the domain, and answers whether what stands there is above the
/// threshold.
fn receive_outside(on: &FieldMesh, side: Side, to: u32, ghosts: &mut Vec<Cells>) -> bool
    requires on { CanExchange on.now }
    requires axis { side.axis < on.now.layout.now.dims }
    requires to { to < leaf_count on.now }
    requires face { behind_leaf on.now side to ≡ outside }
    requires ghosts { HoldOwn on.now ghosts.old.items }
    ensures filled { IsFilled on.now side to ghosts.old.items ghosts.new.items }
    ensures above { result ≡ comes_beyond on.now side to }
{
    let total = ghost_of(on.problem, on.field, side, on.tree.leaf_at(to).level);
    give_outside(on.layout, side, total, &mut ghosts[to as usize]);
    on.problem.alloc_threshold < total
}

/// Fills the ghosts of a leaf by the finer leaves behind its side, and answers whether a total above the threshold
/// comes.
fn receive_finer(
    alloc: Global,
    on: &FieldMesh,
    side: Side,
    senders: &FineLeaves,
    to: u32,
    ghosts: &mut Vec<Cells>,
) -> Result<bool, NoMemory>
    requires on { CanExchange on.now }
    requires axis { side.axis < on.now.layout.now.dims }
    requires to { to < leaf_count on.now }
    requires listed { All (λ from. from < leaf_count on.now) senders.now }
    requires senders { behind_leaf on.now side to ≡ fine (map (leaf_on on.now) senders.now) }
    requires ghosts { HoldOwn on.now ghosts.old.items }
    ensures filled { OnOk result (IsFilled on.now side to ghosts.old.items ghosts.new.items) }
    ensures above { IfOk result (λ above. above
        ≡ list_any (λ from. some_above on.now.problem.now.alloc_threshold (sent_to on.now side from to)) senders.now) }
{
    let mut above = false;
    for k in 0..senders.len() {
        let from = senders.get(k).unwrap();
        let half = side_part(on.layout.dims, side.axis, &on.tree.leaf_at(from));
        let comes = receive(alloc, on, How::Finer, half, side, from, to, ghosts)?;
        above = above || comes;
    }
    Ok(above)
}

/// Fills the ghosts of a leaf beyond a side, and answers whether something above the threshold comes across it.
fn fill_side(
    alloc: Global,
    on: &FieldMesh,
    side: Side,
    to: u32,
    ghosts: &mut Vec<Cells>,
) -> Result<bool, NoMemory>
    requires on { CanExchange on.now }
    requires axis { side.axis < on.now.layout.now.dims }
    requires to { to < leaf_count on.now }
    requires ghosts { HoldOwn on.now ghosts.old.items }
    ensures filled { OnOk result (IsFilled on.now side to ghosts.old.items ghosts.new.items) }
    ensures above { IfOk result (λ above. above ≡ comes_beyond on.now side to) }
{
    match on.tree.behind(to, side) {
        Behind::Outside => Ok(receive_outside(on, side, to, ghosts)),
        Behind::Same(from) => receive(alloc, on, How::Same, 0, side, from, to, ghosts),
        Behind::Coarse(from) => {
            let half = side_part(on.layout.dims, side.axis, &on.tree.leaf_at(to));
            receive(alloc, on, How::Coarser, half, side, from, to, ghosts)
        }
        Behind::Fine(senders) => receive_finer(alloc, on, side, &senders, to, ghosts),
    }
}

/// Fills the ghosts of a leaf by another leaf of the same level behind its side, cell by cell.
fn copy_same(alloc: Global, on: &FieldMesh, side: Side, from: u32, to: u32, ghosts: &mut Vec<Cells>)
    requires on { CanExchange on.now }
    requires axis { side.axis < on.now.layout.now.dims }
    requires from { from < leaf_count on.now }
    requires to { to < leaf_count on.now }
    requires other { from ≢ to }
    requires sender { behind_leaf on.now side to ≡ same (leaf_on on.now from) }
    requires ghosts { HoldOwn on.now ghosts.old.items }
    ensures { IsReceived on.now Same 0 side from to ghosts.old.items ghosts.new.items }
{
    let mut cells = mem::replace(&mut ghosts[to as usize], Cells::new(alloc));
    copy_layers(
        on.layout,
        side,
        ghosts[from as usize].as_slice(),
        &mut cells,
    );
    ghosts[to as usize] = cells;
}

/// The same where the leaf behind the side may be the leaf itself.
fn receive_same(
    alloc: Global,
    on: &FieldMesh,
    side: Side,
    from: u32,
    to: u32,
    ghosts: &mut Vec<Cells>,
) -> Result<(), NoMemory>
    requires on { CanExchange on.now }
    requires axis { side.axis < on.now.layout.now.dims }
    requires from { from < leaf_count on.now }
    requires to { to < leaf_count on.now }
    requires sender { behind_leaf on.now side to ≡ same (leaf_on on.now from) }
    requires ghosts { HoldOwn on.now ghosts.old.items }
    ensures { OnOk result (IsReceived on.now Same 0 side from to ghosts.old.items ghosts.new.items) }
{
    if from == to {
        receive(alloc, on, How::Same, 0, side, from, to, ghosts)?;
    } else {
        copy_same(alloc, on, side, from, to, ghosts);
    }
    Ok(())
}

/// Fills the ghosts of a leaf beyond a side, across which is not asked what comes.
fn fill_unasked(
    alloc: Global,
    on: &FieldMesh,
    side: Side,
    to: u32,
    ghosts: &mut Vec<Cells>,
) -> Result<(), NoMemory>
    requires on { CanExchange on.now }
    requires axis { side.axis < on.now.layout.now.dims }
    requires to { to < leaf_count on.now }
    requires ghosts { HoldOwn on.now ghosts.old.items }
    ensures { OnOk result (IsFilled on.now side to ghosts.old.items ghosts.new.items) }
{
    match on.tree.behind(to, side) {
        Behind::Same(from) => receive_same(alloc, on, side, from, to, ghosts),
        _ => {
            fill_side(alloc, on, side, to, ghosts)?;
            Ok(())
        }
    }
}

/// Fills the ghosts of a leaf beyond one more side, and answers whether something above the threshold comes across it or
/// has come before.
pub(crate) fn fill_next(
    alloc: Global,
    on: &FieldMesh,
    side: Side,
    to: u32,
    before: bool,
    ghosts: &mut Vec<Cells>,
) -> Result<bool, NoMemory>
    requires on { CanExchange on.now }
    requires axis { side.axis < on.now.layout.now.dims }
    requires to { to < leaf_count on.now }
    requires ghosts { HoldOwn on.now ghosts.old.items }
    ensures filled { OnOk result (IsFilled on.now side to ghosts.old.items ghosts.new.items) }
    ensures above { IfOk result (λ above. above ≡ (before || comes_beyond on.now side to)) }
{
    if !before {
        return fill_side(alloc, on, side, to, ghosts);
    }
    fill_unasked(alloc, on, side, to, ghosts)?;
    Ok(true)
}
