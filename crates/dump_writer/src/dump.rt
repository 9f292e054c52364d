//! The text of a dump, whole and in pieces.

ghost use Rattle.std.specs.Prelude.{◌≡◌, ◌+◌, ◌<◌, ◌++◌, [], IfOk, OnErr, OnOk};
ghost use Rattle.std.specs.List.{slice_index_or};
ghost use Rattle.problem_set.specs.SettingsOf.{settings_of};
ghost use Rattle.mesh_rules.specs.Cycle.{State};
ghost use Rattle.mesh_rules.specs.Texts.{dump_text};
ghost use Rattle.mesh_texts.specs.Dump.{Steps, dump_pieces, joined};
ghost use Rattle.cell_block.specs.State.{HasLayout, leaf_count};
ghost use Rattle.cell_block.specs.Rules.{IsStoredFor, StandsFor, mesh_in};
ghost use Rattle.dump_writer.specs.Pieces.{text_of};

use crate::block::write_block;
use crate::piece::Piece;
use block_layout::Layout;
use cell_block::MeshState;
use mesh_num::NoMemory;
use mesh_texts::{push_end, push_heading};
use problem_set::Problem;
use std::alloc::Global;
use std::marker::Model;

/// A walk over the text of a dump: its heading, its blocks one by one, and its end. Contracts see the pieces that are
/// still to come.
#[derive(Drop)]
pub struct DumpWalk<'a> {
    problem: &'a Problem,
    mesh: &'a MeshState,
    layout: &'a Layout,
    cycle: u32,
    /// How many pieces were given.
    given: u32,
    /// The totals of a field on a block.
    cells: Vec<u64>,
    /// The piece that is written.
    piece: Piece,
}

impl<'a> Model for DumpWalk<'a> {
    ghost use Rattle.std.specs.Prelude.{◌+◌, ◌≤◌, ℕ, List, drop};
    ghost use Rattle.problem_set.specs.SettingsOf.{settings_of};
    ghost use Rattle.mesh_texts.specs.Dump.{dump_pieces};
    ghost use Rattle.cell_block.specs.State.{HasLayout, leaf_count};
    ghost use Rattle.cell_block.specs.Rules.{IsStoredFor, mesh_in};

    ghost Value = { List (List ℕ) };

    ghost view = { λ w. drop w.given
        (dump_pieces (settings_of w.problem.now) (mesh_in w.layout.now w.mesh.now) w.cycle) };

    ghost invariant = { λ w. IsStoredFor (settings_of w.problem.now) w.mesh.now × (HasLayout w.mesh.now w.layout.now
        × (w.given ≤ leaf_count w.mesh.now + 2)) };
}

impl<'a> DumpWalk<'a> {
    /// A walk over the dump of a mesh state after so many cycles. It takes no memory before the first piece.
    pub fn start(
        alloc: Global,
        problem: &'a Problem,
        mesh: &'a MeshState,
        cycle: u32,
    ) -> DumpWalk<'a>
        requires { IsStoredFor (settings_of problem.now) mesh.now }
        ensures pieces { (c : State) → StandsFor (settings_of problem.now) mesh.now c
            → result ≡ dump_pieces (settings_of problem.now) c.mesh cycle }
        ensures whole { (c : State) → StandsFor (settings_of problem.now) mesh.now c
            → joined result ≡ dump_text (settings_of problem.now) c.mesh cycle }
    {
        DumpWalk {
            problem,
            mesh,
            layout: mesh.layout(),
            cycle,
            given: 0,
            cells: Vec::new(alloc),
            piece: Piece::new(alloc),
        }
    }

    /// Appends the next piece and answers true, or appends nothing and answers false exactly where all pieces were
    /// given. After a refusal the text is as before, and the same piece is still to come.
    pub fn next(&mut self, into: &mut Vec<u8>) -> Result<bool, NoMemory>
        ensures step { IfOk result (λ more. Steps more self.old self.new into.old.items into.new.items) }
        ensures refused { OnErr result (self.new ≡ self.old) }
        ensures kept { OnErr result (into.new.items ≡ into.old.items) }
    {
        if self.given > self.mesh.tree().len() + 1 {
            return Ok(false);
        }
        write_piece(
            self.problem,
            self.mesh,
            self.layout,
            self.cycle,
            self.given,
            &mut self.cells,
            &mut self.piece,
        )?;
        self.piece.append_to(into)?;
        self.given += 1;
        Ok(true)
    }
}

/// Writes the piece of a dump with a number in the place of another one.
fn write_piece(
    problem: &Problem,
    mesh: &MeshState,
    layout: &Layout,
    cycle: u32,
    number: u32,
    cells: &mut Vec<u64>,
    piece: &mut Piece,
) -> Result<(), NoMemory>
    requires stored { IsStoredFor (settings_of problem.now) mesh.now }
    requires layout { HasLayout mesh.now layout.now }
    requires within { number < leaf_count mesh.now + 2 }
    ensures { OnOk result (text_of piece.new
        ≡ slice_index_or (dump_pieces (settings_of problem.now) (mesh_in layout.now mesh.now) cycle) number []) }
{
    piece.clear();
    let leaves = mesh.tree().len();
    if number == 0 {
        push_heading(problem, leaves, cycle, &mut piece.first)
    } else if number <= leaves {
        write_block(problem, mesh, layout, number - 1, cells, piece)
    } else {
        push_end(&mut piece.first)
    }
}

/// The text of the dump of a mesh state after so many cycles.
pub fn dump_text(
    alloc: Global,
    problem: &Problem,
    mesh: &MeshState,
    cycle: u32,
) -> Result<Vec<u8>, NoMemory>
    requires { IsStoredFor (settings_of problem.now) mesh.now }
    ensures { (c : State) → StandsFor (settings_of problem.now) mesh.now c
        → IfOk result (λ text. text.items ≡ dump_text (settings_of problem.now) c.mesh cycle) }
{
    let mut text = Vec::new(alloc);
    let mut walk = DumpWalk::start(alloc, problem, mesh, cycle);
    'pieces: while walk.next(&mut text)? {}
    Ok(text)
}
