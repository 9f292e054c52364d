//! The text of a dump, whole and in pieces.

ghost use Rattle.std.specs.Prelude.{◌≡◌, ◌+◌, ◌<◌, ◌++◌, [], IfOk, OnOk, OnErr, length};
ghost use Rattle.std.specs.List.{slice_index_or};
ghost use Rattle.block_tree.specs.Blocks.{leaves};
ghost use Rattle.problem_set.specs.SettingsOf.{settings_of};
ghost use Rattle.mesh_rules.specs.Texts.{dump_text};
ghost use Rattle.dense_mesh.specs.Meshes.{IsMeshIn, mesh_of};
ghost use Rattle.mesh_texts.specs.Sizes.{HaveBlocks};
ghost use Rattle.mesh_texts.specs.Dump.{Steps, dump_pieces, joined};

use crate::block::push_leaf;
use crate::heading::push_heading;
use crate::pieces::push_end;
use block_layout::Layout;
use block_tree::Tree;
use dense_mesh::FieldTotals;
use mesh_num::NoMemory;
use problem_set::Problem;
use std::alloc::Global;
use std::marker::Model;

/// A walk over the text of a dump: its heading, its blocks one by one, and its end. Contracts see the pieces that are
/// still to come.
#[derive(Drop)]
pub struct DumpWalk<'a> {
    problem: &'a Problem,
    tree: &'a Tree,
    layout: &'a Layout,
    lists: &'a [FieldTotals],
    cycle: u32,
    /// How many pieces were given.
    given: u32,
}

impl<'a> Model for DumpWalk<'a> {
    ghost use Rattle.std.specs.Prelude.{◌+◌, ◌≤◌, ℕ, List, drop, length};
    ghost use Rattle.block_tree.specs.Blocks.{leaves};
    ghost use Rattle.problem_set.specs.SettingsOf.{settings_of};
    ghost use Rattle.dense_mesh.specs.Meshes.{mesh_of};
    ghost use Rattle.mesh_texts.specs.Sizes.{HaveBlocks};
    ghost use Rattle.mesh_texts.specs.Dump.{dump_pieces};

    ghost Value = { List (List ℕ) };

    ghost view = { λ w. drop w.given (dump_pieces (settings_of w.problem.now)
        (mesh_of w.tree.now w.problem.now.cells w.lists.now) w.cycle) };

    ghost invariant = { λ w. HaveBlocks (settings_of w.problem.now) w.tree.now w.layout.now w.lists.now
        × (w.given ≤ length (leaves w.tree.now) + 2) };
}

impl<'a> DumpWalk<'a> {
    /// A walk over the dump after so many cycles. `lists` has the totals by field and leaf, in blocks of the layout.
    pub fn start(
        problem: &'a Problem,
        tree: &'a Tree,
        layout: &'a Layout,
        lists: &'a [FieldTotals],
        cycle: u32,
    ) -> DumpWalk<'a>
        requires { IsMeshIn (settings_of problem.now) tree.now layout.now lists.now }
        ensures pieces { result
            ≡ dump_pieces (settings_of problem.now) (mesh_of tree.now problem.now.cells lists.now) cycle }
        ensures whole { joined result
            ≡ dump_text (settings_of problem.now) (mesh_of tree.now problem.now.cells lists.now) cycle }
    {
        DumpWalk {
            problem,
            tree,
            layout,
            lists,
            cycle,
            given: 0,
        }
    }

    /// Appends the next piece and answers true, or appends nothing and answers false exactly where all pieces were
    /// given. After a refusal the same piece is still to come.
    pub fn next(&mut self, into: &mut Vec<u8>) -> Result<bool, NoMemory>
        ensures step { IfOk result (λ more. Steps more self.old self.new into.old.items into.new.items) }
        ensures refused { OnErr result (self.new ≡ self.old) }
    {
        if self.given > self.tree.len() + 1 {
            return Ok(false);
        }
        push_piece(
            self.problem,
            self.tree,
            self.layout,
            self.lists,
            self.cycle,
            self.given,
            into,
        )?;
        self.given += 1;
        Ok(true)
    }
}

/// Appends the piece of a dump with a number.
fn push_piece(
    problem: &Problem,
    tree: &Tree,
    layout: &Layout,
    lists: &[FieldTotals],
    cycle: u32,
    piece: u32,
    into: &mut Vec<u8>,
) -> Result<(), NoMemory>
    requires blocks { HaveBlocks (settings_of problem.now) tree.now layout.now lists.now }
    requires within { piece < length (leaves tree.now) + 2 }
    ensures { OnOk result (into.new.items ≡ into.old.items
        ++ slice_index_or (dump_pieces (settings_of problem.now) (mesh_of tree.now problem.now.cells lists.now) cycle) piece []) }
{
    let leaves = tree.len();
    if piece == 0 {
        push_heading(problem, leaves, cycle, into)
    } else if piece <= leaves {
        push_leaf(
            problem,
            layout,
            lists,
            piece - 1,
            &tree.leaf_at(piece - 1),
            into,
        )
    } else {
        push_end(into)
    }
}

/// The text of the dump after so many cycles. `lists` has the totals by field and leaf, in blocks of the layout.
pub fn dump_text(
    alloc: Global,
    problem: &Problem,
    tree: &Tree,
    layout: &Layout,
    lists: &[FieldTotals],
    cycle: u32,
) -> Result<Vec<u8>, NoMemory>
    requires { IsMeshIn (settings_of problem.now) tree.now layout.now lists.now }
    ensures { IfOk result (λ text. text.items
        ≡ dump_text (settings_of problem.now) (mesh_of tree.now problem.now.cells lists.now) cycle) }
{
    let mut text = Vec::new(alloc);
    let mut walk = DumpWalk::start(problem, tree, layout, lists, cycle);
    'pieces: while walk.next(&mut text)? {}
    Ok(text)
}
