//! The leaves that are due a letter across a side.

ghost use Rattle.std.specs.Prelude.{◌≡◌, ◌<◌, All, map};
ghost use Rattle.task_meshes.specs.Meshes.{leaf_count};
ghost use Rattle.sent_letters.specs.Sent.{letter_to, letters_over};
ghost use Rattle.sent_letters.specs.Receivers.{numbers_behind, numbers_of};

use crate::block_sender::BlockSender;
use block_tree::{Behind, FineLeaves};
use morton_order::Side;
use task_meshes::LetterKind;

/// The leaves behind a side that are due a letter, by their numbers.
#[derive(Drop)]
pub(crate) enum Receivers {
    Nobody,
    One(u32),
    Finer(FineLeaves),
}

/// Those of the leaves behind a side that are due a letter of a kind.
fn due_among(kind: LetterKind, behind: Behind) -> Receivers
    ensures { numbers_of result ≡ numbers_behind kind behind }
{
    match behind {
        Behind::Outside => Receivers::Nobody,
        Behind::Same(to) => match kind {
            LetterKind::Ghosts => Receivers::One(to),
            LetterKind::Fluxes => Receivers::Nobody,
        },
        Behind::Coarse(to) => Receivers::One(to),
        Behind::Fine(tos) => match kind {
            LetterKind::Ghosts => Receivers::Finer(tos),
            LetterKind::Fluxes => Receivers::Nobody,
        },
    }
}

/// The leaves that are due a letter of a block across a side of theirs.
pub(crate) fn due_across(from: &BlockSender, side: Side) -> Receivers
    requires block { from.now.block < leaf_count from.now.on.now }
    requires axis { side.axis < from.now.on.now.tree.now.shape.dims }
    ensures letters { letters_over from.now side ≡ map (letter_to from.now side) (numbers_of result) }
    ensures few { All (λ to. to < leaf_count from.now.on.now) (numbers_of result) }
{
    let own = Side {
        axis: side.axis,
        high: !side.high,
    };
    due_among(from.kind, from.on.tree.behind(from.block, own))
}
