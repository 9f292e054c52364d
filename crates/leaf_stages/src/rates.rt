//! The rates of a field at a level, and the closed sides of a leaf.

ghost use Rattle.std.specs.Prelude.{◌≡◌, ◌<◌, ◌≤◌, None, Some, length, slice_get};
ghost use Rattle.morton_order.specs.declared.space.Loc.{Loc};
ghost use Rattle.morton_order.specs.Neighbours.{across};
ghost use Rattle.problem_set.specs.SettingsOf.{settings_of};
ghost use Rattle.mesh_rules.specs.Fields.{kind_at, moves_at, rates_at};
ghost use Rattle.block_tree.specs.Blocks.{leaves};
ghost use Rattle.upwind_fluxes.specs.Rates.{AreProper};
ghost use Rattle.block_laws.specs.Rates.{reflects};
ghost use Rattle.leaf_stages.specs.Rates.{AreLevelPortions, AreRatesAt, ClosesAt, FitOrder, IsRateOf};

use block_tree::{Behind, Tree};
use morton_order::Side;
use problem_set::{FaceKind, Problem, Rates};
use upwind_fluxes::{LevelRates, Multipliers};

/// The rates of a field along an axis at a level, none along an axis that is not in use.
fn axis_rates(problem: &Problem, field: u32, axis: u32, level: u32) -> Rates
    requires field { field < length problem.now.moves }
    requires axis { axis < 3 }
    requires level { level < problem.now.levels }
    ensures right { axis < problem.now.shape.dims
        → result.right ≡ (rates_at (settings_of problem.now) field axis level).right }
    ensures left { axis < problem.now.shape.dims
        → result.left ≡ (rates_at (settings_of problem.now) field axis level).left }
    ensures right_fits { IsRateOf (settings_of problem.now) field result.right }
    ensures left_fits { IsRateOf (settings_of problem.now) field result.left }
{
    if axis < problem.shape.dims {
        problem.rates(field, axis, level)
    } else {
        Rates { right: 0, left: 0 }
    }
}

/// The rates of a field at a level.
fn level_rates(problem: &Problem, field: u32, level: u32) -> LevelRates
    requires field { field < length problem.now.moves }
    requires level { level < problem.now.levels }
    ensures rates { AreRatesAt (settings_of problem.now) field level result }
    ensures proper { AreProper result }
    ensures second { FitOrder (moves_at (settings_of problem.now) field).order result }
{
    LevelRates {
        denominator: problem.denominator,
        axes: [
            axis_rates(problem, field, 0, level),
            axis_rates(problem, field, 1, level),
            axis_rates(problem, field, 2, level),
        ],
    }
}

/// The rates of a field at a level, and the multipliers that stand for them.
#[derive(Clone, Copy)]
pub struct LevelPortions {
    pub level: u32,
    pub rates: LevelRates,
    pub multipliers: Multipliers,
}

/// The rates of a field at a level with their multipliers.
pub fn level_portions(problem: &Problem, field: u32, level: u32) -> LevelPortions
    requires field { field < length problem.now.moves }
    requires level { level < problem.now.levels }
    ensures portions { AreLevelPortions (settings_of problem.now) field result }
    ensures level { result.level ≡ level }
{
    let rates = level_rates(problem, field, level);
    LevelPortions {
        level,
        rates,
        multipliers: Multipliers::of(&rates),
    }
}

/// The rates of a field at a level with their multipliers, made anew only where those at hand are of another level.
pub fn portions_at(
    problem: &Problem,
    field: u32,
    level: u32,
    at_hand: LevelPortions,
) -> LevelPortions
    requires field { field < length problem.now.moves }
    requires level { level < problem.now.levels }
    requires at_hand { AreLevelPortions (settings_of problem.now) field at_hand }
    ensures portions { AreLevelPortions (settings_of problem.now) field result }
    ensures level { result.level ≡ level }
{
    if at_hand.level == level {
        at_hand
    } else {
        level_portions(problem, field, level)
    }
}

/// Whether nothing lies across a side of a leaf, and the face of the domain reflects.
fn is_closed(problem: &Problem, tree: &Tree, leaf: u32, side: Side) -> bool
    requires leaf { leaf < length (leaves tree.now) }
    requires axis { side.axis < 3 }
    ensures { (l : Loc) → slice_get (leaves tree.now) leaf ≡ Some l → side.axis < tree.now.shape.dims
        → result ≡ reflects (kind_at (settings_of problem.now) side.axis side.high)
        (across tree.now.shape l side.axis side.high) }
{
    if side.axis >= tree.shape().dims {
        return false;
    }
    match tree.behind(leaf, side) {
        Behind::Outside => reflects_at(problem, side),
        _ => false,
    }
}

/// Whether a face of the domain reflects.
fn reflects_at(problem: &Problem, side: Side) -> bool
    requires axis { side.axis < 3 }
    ensures { result ≡ reflects (kind_at (settings_of problem.now) side.axis side.high) None }
{
    let high = if side.high { 1 } else { 0 };
    match problem.faces.as_slice()[2 * side.axis as usize + high] {
        FaceKind::Reflecting => true,
        _ => false,
    }
}

/// Which sides of a leaf are closed, in the order x1 low, x1 high, x2 low, x2 high, x3 low, x3 high.
pub fn closed_sides(problem: &Problem, tree: &Tree, leaf: u32) -> [bool; 6]
    requires leaf { leaf < length (leaves tree.now) }
    ensures { ClosesAt problem.now tree.now leaf result }
{
    [
        is_closed(
            problem,
            tree,
            leaf,
            Side {
                axis: 0,
                high: false,
            },
        ),
        is_closed(
            problem,
            tree,
            leaf,
            Side {
                axis: 0,
                high: true,
            },
        ),
        is_closed(
            problem,
            tree,
            leaf,
            Side {
                axis: 1,
                high: false,
            },
        ),
        is_closed(
            problem,
            tree,
            leaf,
            Side {
                axis: 1,
                high: true,
            },
        ),
        is_closed(
            problem,
            tree,
            leaf,
            Side {
                axis: 2,
                high: false,
            },
        ),
        is_closed(
            problem,
            tree,
            leaf,
            Side {
                axis: 2,
                high: true,
            },
        ),
    ]
}
