//! All that a deck says, part by part.

ghost use Rattle.std.specs.Prelude.{◌≡◌, All, length};
ghost use Rattle.mesh_settings.specs.Sound.{IsSize, IsRefining, IsFaces, IsGrid, IsStepping};
ghost use Rattle.deck_entries.specs.SoundEntries.{IsMoves};
ghost use Rattle.problem_set.specs.SoundProblem.{AreEntries};

use crate::repeated_blocks::{RepeatedBlocks, read_repeated_blocks};
use deck_values::ProblemFault;
use input_file::Deck;
use mesh_settings::{Grid, Mesh, Stepping, read_grid, read_mesh_keys, read_stepping};
use std::alloc::Global;

/// What the sections of a deck say, before it is known whether the rates and the totals fit.
#[derive(Drop)]
pub struct DeckSections {
    pub mesh: Mesh,
    pub grid: Grid,
    pub stepping: Stepping,
    pub repeated: RepeatedBlocks,
    pub ghost size_sound: { IsSize mesh.size },
    pub ghost refining_sound: { IsRefining mesh.refining },
    pub ghost faces_sound: { IsFaces mesh.faces },
    pub ghost grid_sound: { IsGrid mesh.size grid.cells grid.shape },
    pub ghost stepping_sound: { IsStepping stepping },
    pub ghost as_many: { length repeated.field_table.moves ≡ length repeated.field_table.fields.fields },
    pub ghost moves_sound: { All IsMoves repeated.field_table.moves },
    pub ghost entries_sound: { AreEntries mesh.size mesh.refining.levels (length repeated.field_table.fields.fields) repeated.counted.statics repeated.counted.boxes repeated.counted.reactions repeated.counted.criteria },
}

impl DeckSections {
    ghost use Rattle.deck_values.specs.Reading.{Answers};
    ghost use Rattle.problem_set.specs.Problems.{settings_read};
    ghost use Rattle.problem_set.specs.SettingsOf.{sections_settings};

    /// Reads all sections of a deck in order.
    #[tactic(auto, unfolding(crate::specs::Problems::settings_read))]
    pub fn read(alloc: Global, deck: &Deck) -> Result<DeckSections, ProblemFault>
        ensures { Answers sections_settings result (settings_read deck.now) }
    {
        let mesh = read_mesh_keys(alloc, deck)?;
        let size = mesh.size;
        let grid = read_grid(alloc, deck, size, &mesh.faces)?;
        let stepping = read_stepping(alloc, deck)?;
        let refining = mesh.refining;
        let repeated = read_repeated_blocks(alloc, deck, size, refining.mode, refining.levels)?;
        Ok(DeckSections {
            mesh,
            grid,
            stepping,
            repeated,
        })
    }
}
