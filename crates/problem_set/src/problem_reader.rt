//! The problem that a deck gives.

ghost use Rattle.std.specs.Prelude.{◌≡◌, ◌≤◌, ◌-◌, ◌*◌, OnOk};
ghost use Rattle.std.specs.List.{zip};
ghost use Rattle.deck_values.specs.Reading.{Answers, Gives};
ghost use Rattle.problem_set.specs.Fitting.{rates_fit};
ghost use Rattle.problem_set.specs.SoundProblem.{HaveFittingRates};
ghost use Rattle.mesh_settings.specs.Limits.{greatest_total};
ghost use Rattle.problem_set.specs.Problems.{bound_of, fitting, problem};
ghost use Rattle.problem_set.specs.SettingsOf.{sections_settings, settings_of};

use crate::deck_sections::DeckSections;
use crate::fitting::{boxes_total, stage_inflow};
use crate::packages::FieldTable;
use crate::problem::Problem;
use crate::rates::check_rates;
use crate::repeated_blocks::{CountedBlocks, RepeatedBlocks};
use deck_values::ProblemFault;
use input_file::Deck;
use mesh_settings::{GREATEST_TOTAL, Grid, Mesh};
use std::alloc::Global;

/// The problem that a deck gives.
///
/// The faults come in this order, and the first one is answered: of the keys of the mesh, of the
/// blocks, of time, of sparse fields and of the whole numbers; of the counts of static boxes, opening
/// boxes, reactions and criteria; of the field blocks in deck order, and then of their packages; of
/// the static boxes, opening boxes, reactions and criteria in deck order; of the rates, field by
/// field; of the bound on all totals.
#[tactic(auto, unfolding(crate::specs::Problems::problem))]
pub fn read_problem(alloc: Global, deck: &Deck) -> Result<Problem, ProblemFault>
    ensures { Answers settings_of result (problem deck.now) }
{
    let sections = DeckSections::read(alloc, deck)?;
    check_fitting(alloc, &sections)?;
    Ok(problem_of(sections))
}

/// Whether the rates and then the bound fit.
#[tactic(auto, unfolding(crate::specs::Problems::fitting))]
fn check_fitting(alloc: Global, sections: &DeckSections) -> Result<(), ProblemFault>
    ensures value { Gives result (fitting (sections_settings sections.now)) }
    ensures rates { OnOk result (HaveFittingRates sections.now.grid.shape.dims sections.now.mesh.refining.levels
        sections.now.stepping.cycle.denominator sections.now.repeated.field_table.fields.fields
        sections.now.repeated.field_table.moves) }
    ensures totals { OnOk result (bound_of (sections_settings sections.now) ≤ greatest_total) }
{
    check_section_rates(alloc, sections)?;
    let total = bound_of(sections);
    let most = u128::from(GREATEST_TOTAL);
    if total <= most {
        Ok(())
    } else {
        Err(ProblemFault::Bound { total })
    }
}

/// Whether the rates fit.
fn check_section_rates(alloc: Global, sections: &DeckSections) -> Result<(), ProblemFault>
    ensures { Gives result (rates_fit sections.now.grid.shape.dims
        (sections.now.mesh.refining.levels - 1) sections.now.stepping.cycle.denominator
        (zip sections.now.repeated.field_table.fields.fields sections.now.repeated.field_table.moves)) }
{
    check_rates(
        alloc,
        sections.grid.shape.dims,
        sections.mesh.refining.levels - 1,
        sections.stepping.cycle.denominator,
        sections.repeated.field_table.fields.fields(),
        sections.repeated.field_table.moves.as_slice(),
    )
}

/// The opening sum of all totals, and all that may come in during the run.
fn bound_of(sections: &DeckSections) -> u128
    ensures { result ≡ bound_of (sections_settings sections.now) }
{
    let size = sections.mesh.size;
    let fields = &sections.repeated.field_table.fields;
    let moves = sections.repeated.field_table.moves.as_slice();
    let count = fields.count();
    let opening = boxes_total(
        size,
        sections.repeated.counted.boxes.as_slice(),
        count as usize,
    );
    let inflow = stage_inflow(
        sections.grid.shape.dims,
        size,
        &sections.mesh.faces,
        fields.fields(),
        moves,
    );
    let stages = u128::from(sections.stepping.nlim) * u128::from(sections.stepping.cycle.nstages);
    opening + inflow * stages
}

/// The problem of sections that fit.
fn problem_of(sections: DeckSections) -> Problem
    requires rates { HaveFittingRates sections.grid.shape.dims sections.mesh.refining.levels
        sections.stepping.cycle.denominator sections.repeated.field_table.fields.fields
        sections.repeated.field_table.moves }
    requires totals { bound_of (sections_settings sections) ≤ greatest_total }
    ensures { settings_of result ≡ sections_settings sections }
{
    let DeckSections {
        mesh,
        grid,
        stepping,
        repeated,
    } = sections;
    let Mesh {
        size,
        refining,
        faces,
    } = mesh;
    let Grid { shape, cells } = grid;
    let RepeatedBlocks {
        field_table,
        counted,
    } = repeated;
    let FieldTable { fields, moves } = field_table;
    let CountedBlocks {
        statics,
        boxes,
        reactions,
        criteria,
    } = counted;
    // Counting tells the facts of a registry: there are at most 256 fields.
    let _count = fields.count();
    Problem {
        shape,
        size,
        cells,
        mode: refining.mode,
        levels: refining.levels,
        derefine_count: refining.derefine_count,
        pack_size: refining.pack_size,
        faces,
        nlim: stepping.nlim,
        alloc_threshold: stepping.sparsity.alloc_threshold,
        dealloc_threshold: stepping.sparsity.dealloc_threshold,
        dealloc_count: stepping.sparsity.dealloc_count,
        denominator: stepping.cycle.denominator,
        nstages: stepping.cycle.nstages,
        refine_every: stepping.cycle.refine_every,
        dump_every: stepping.cycle.dump_every,
        fields,
        moves,
        statics,
        boxes,
        reactions,
        criteria,
    }
}
