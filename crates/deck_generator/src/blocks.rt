//! The blocks of a generated deck.

ghost use Rattle.std.specs.Prelude.{◌≡◌, ◌≤◌, ◌<◌, ◌^◌, OnOk};
ghost use Rattle.deck_generator.specs.Generated.{next_drawn, drawn, mesh_settings, meshblock_settings, time_settings, whole_settings, field_settings, speed_text, box_name, box_settings, reaction_settings, criterion_settings};
ghost use Rattle.deck_generator.specs.Settings.{with_settings, with_boxes, with_mesh, with_field, with_rules};
ghost use Rattle.std.specs.Prelude.{codes, true};
ghost use Rattle.deck_generator.specs.Values.{value_text, is_formed};

use crate::form::{Form, refinement_word};
use crate::settings::add_settings;
use crate::values::Value;
use input_file::{Deck, NoMemory};
use std::alloc::Global;

/// The number that is drawn after another.
fn next_drawn(r: u32) -> u32
    requires { r < 2 ^ 31 }
    ensures value { result ≡ next_drawn r }
    ensures most { result < 2 ^ 31 }
{
    ((u64::from(r) * 1_103_515_245 + 12345) % 2_147_483_648) as u32
}

/// Adds the mesh, its blocks, the cycles and the numbers of a cycle.
pub fn add_mesh(alloc: Global, deck: &mut Deck, form: &Form) -> Result<(), NoMemory>
    ensures { OnOk result (deck.new ≡ with_mesh form.now deck.old) }
{
    add_mesh_settings(alloc, deck, form)?;
    add_meshblock(alloc, deck, form)?;
    add_time(alloc, deck, form)?;
    add_whole(alloc, deck)
}

fn add_mesh_settings(alloc: Global, deck: &mut Deck, form: &Form) -> Result<(), NoMemory>
    ensures { OnOk result (deck.new ≡ with_settings deck.old (codes "parthenon/mesh") (mesh_settings form.now)) }
{
    let refinement = refinement_word(form.adaptive);
    let settings = [
        ("nx1", Value::Number(form.cells)),
        ("nx2", Value::Number(form.cells)),
        ("refinement", Value::Word(refinement)),
        ("numlevel", Value::Number(form.levels)),
        ("derefine_count", Value::Word("2")),
        ("pack_size", Value::Number(form.pack_size)),
        ("ix1_bc", Value::Word("periodic")),
        ("ox1_bc", Value::Word("periodic")),
        ("ix2_bc", Value::Word("reflecting")),
        ("ox2_bc", Value::Word("reflecting")),
    ];
    add_settings(alloc, deck, "parthenon/mesh", &settings)
}

fn add_meshblock(alloc: Global, deck: &mut Deck, form: &Form) -> Result<(), NoMemory>
    ensures { OnOk result (deck.new ≡ with_settings deck.old (codes "parthenon/meshblock")
        (meshblock_settings form.now)) }
{
    let settings = [
        ("nx1", Value::Number(form.block_cells)),
        ("nx2", Value::Number(form.block_cells)),
    ];
    add_settings(alloc, deck, "parthenon/meshblock", &settings)
}

fn add_time(alloc: Global, deck: &mut Deck, form: &Form) -> Result<(), NoMemory>
    ensures { OnOk result (deck.new ≡ with_settings deck.old (codes "parthenon/time") (time_settings form.now)) }
{
    let settings = [("nlim", Value::Number(form.cycles))];
    add_settings(alloc, deck, "parthenon/time", &settings)
}

fn add_whole(alloc: Global, deck: &mut Deck) -> Result<(), NoMemory>
    ensures { OnOk result (deck.new ≡ with_settings deck.old (codes "whole") whole_settings) }
{
    let settings = [
        ("denominator", Value::Word("64")),
        ("nstages", Value::Word("2")),
        ("refine_every", Value::Word("2")),
        ("dump_every", Value::Word("4")),
    ];
    add_settings(alloc, deck, "whole", &settings)
}

/// Adds the pool of sparse fields, which move by the first two numbers that are drawn.
pub fn add_pool(alloc: Global, deck: &mut Deck, form: &Form, seed: u32) -> Result<(), NoMemory>
    requires { seed < 2 ^ 31 }
    ensures { OnOk result (deck.new ≡ with_field form.now seed deck.old) }
{
    let first = next_drawn(seed);
    let second = next_drawn(first);
    add_pool_settings(alloc, deck, form, first, second)
}

/// Adds the pool by the numbers that were drawn for it.
fn add_pool_settings(
    alloc: Global,
    deck: &mut Deck,
    form: &Form,
    first: u32,
    second: u32,
) -> Result<(), NoMemory>
    ensures { OnOk result (deck.new ≡ with_settings deck.old (codes "field/s") (field_settings form.now first second)) }
{
    let settings = [
        (
            "flags",
            Value::Word("Cell,Independent,FillGhost,WithFluxes,Sparse"),
        ),
        ("ids", Value::NumbersBelow(form.fields)),
        ("v1", speed(first)),
        ("v2", speed(second)),
        ("k", Value::Word("1")),
    ];
    add_settings(alloc, deck, "field/s", &settings)
}

/// A speed of at most 2 either way, by a number that was drawn.
fn speed(r: u32) -> Value<'static>
    ensures value { value_text result ≡ speed_text r }
    ensures formed { is_formed result ≡ true }
{
    let n = r % 5;
    if n < 2 {
        Value::Negative(2 - n)
    } else {
        Value::Number(n - 2)
    }
}

/// Adds a box for each field, at places by the numbers that are drawn behind the first two.
pub fn add_boxes(alloc: Global, deck: &mut Deck, form: &Form, seed: u32) -> Result<(), NoMemory>
    requires seed { seed < 2 ^ 31 }
    requires wide { 32 ≤ form.now.cells }
    requires most { form.now.cells ≤ 2048 }
    requires fields { form.now.fields ≤ 256 }
    ensures { OnOk result (deck.new ≡ with_boxes form.now seed deck.old form.now.fields) }
{
    let fields = form.fields;
    let mut r = next_drawn(next_drawn(seed));
    for i in 0..fields {
        let x = next_drawn(r);
        let y = next_drawn(x);
        add_box(alloc, deck, form, i, (x, y))?;
        r = y;
    }
    Ok(())
}

/// Adds a box of two by two cells of the field with a number, by the numbers that were drawn for it.
fn add_box(
    alloc: Global,
    deck: &mut Deck,
    form: &Form,
    i: u32,
    drawn: (u32, u32),
) -> Result<(), NoMemory>
    requires wide { 32 ≤ form.now.cells }
    requires most { form.now.cells ≤ 2048 }
    requires field { i < 256 }
    ensures { OnOk result (deck.new ≡ with_settings deck.old (box_name i) (box_settings form.now i drawn.0 drawn.1)) }
{
    let name = format!(in alloc; "box/{i}")?;
    let x = drawn.0 % (form.cells - 1);
    let y = drawn.1 % (form.cells - 1);
    let settings = [
        ("field", Value::Label(i)),
        ("lo1", Value::Number(x)),
        ("hi1", Value::Number(x + 1)),
        ("lo2", Value::Number(y)),
        ("hi2", Value::Number(y + 1)),
        ("amount", Value::Number(1000 + i)),
    ];
    add_settings(alloc, deck, name.as_str(), &settings)
}

/// Adds the reaction of the first field to the second, and the criterion of the first.
pub fn add_rules(alloc: Global, deck: &mut Deck) -> Result<(), NoMemory>
    ensures { OnOk result (deck.new ≡ with_rules deck.old) }
{
    add_reaction(alloc, deck)?;
    add_criterion(alloc, deck)
}

fn add_reaction(alloc: Global, deck: &mut Deck) -> Result<(), NoMemory>
    ensures { OnOk result (deck.new ≡ with_settings deck.old (codes "reaction/r") reaction_settings) }
{
    let settings = [
        ("from", Value::Word("s_0")),
        ("to", Value::Word("s_1")),
        ("num", Value::Word("1")),
        ("den", Value::Word("10")),
    ];
    add_settings(alloc, deck, "reaction/r", &settings)
}

fn add_criterion(alloc: Global, deck: &mut Deck) -> Result<(), NoMemory>
    ensures { OnOk result (deck.new ≡ with_settings deck.old (codes "criterion/c") criterion_settings) }
{
    let settings = [
        ("field", Value::Word("s_0")),
        ("method", Value::Word("peak")),
        ("refine_tol", Value::Word("500")),
        ("derefine_tol", Value::Word("50")),
    ];
    add_settings(alloc, deck, "criterion/c", &settings)
}
