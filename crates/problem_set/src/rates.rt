//! The rates of a field, and what they add up to.

ghost use Rattle.std.specs.Prelude.{◌≡◌, ◌≤◌, ◌<◌, ◌⊎◌, true, false, Some, OnOk, IfErr, length, slice_get, All, unsigned_abs};
ghost use Rattle.std.specs.List.{zip};
ghost use Rattle.mesh_num.specs.Rate.{rate as rate_of};
ghost use Rattle.deck_values.specs.Reading.{Gives};
ghost use Rattle.deck_values.specs.declared.fault.ProblemFault.TheVariants.{NoMemory as no_memory};
ghost use Rattle.problem_set.specs.Rates.{upwards, downwards, velocity, right_rate, left_rate, rate_sum};
ghost use Rattle.problem_set.specs.Fitting.{sum_fits, rates_fit};
ghost use Rattle.deck_entries.specs.SoundEntries.{IsMoves};
ghost use Rattle.mesh_settings.specs.Limits.{greatest_factor};

use deck_entries::Moves;
use deck_values::ProblemFault;
use mesh_num::rate;
use package_fields::{Field, Flag, Name, has_flag};
use std::alloc::Global;

/// The rates at which a field passes a face, over the denominator.
#[derive(Clone, Copy)]
pub struct Rates {
    /// Upwards along the axis.
    pub right: u64,
    /// Downwards along the axis.
    pub left: u64,
}

/// How fast a velocity goes up along its axis.
fn upwards(v: i64) -> u64
    ensures value { result ≡ upwards v }
    ensures bound { result ≤ unsigned_abs v }
{
    if v > 0 { v as u64 } else { 0 }
}

/// How fast a velocity goes down along its axis.
fn downwards(v: i64) -> u64
    ensures value { result ≡ downwards v }
    ensures bound { result ≤ unsigned_abs v }
{
    if v < 0 { v.unsigned_abs() } else { 0 }
}

/// The rates along an axis at a level of a field that has fluxes.
#[tactic(auto, using(crate::proofs::RateLemmas::rate_at_most))]
pub fn rates_of(moves: &Moves, axis: u32, level: u32) -> Rates
    requires sound { IsMoves moves.now }
    requires axis { axis < 3 }
    requires level { level ≤ 10 }
    ensures right { result.right ≡ rate_of (upwards (velocity moves.now axis)) moves.now.k level }
    ensures left { result.left ≡ rate_of (downwards (velocity moves.now axis)) moves.now.k level }
    ensures right_bound { result.right ≤ 2000000000000000 }
    ensures left_bound { result.left ≤ 2000000000000000 }
{
    let v = moves.v[axis as usize];
    Rates {
        right: rate(upwards(v), moves.k, level),
        left: rate(downwards(v), moves.k, level),
    }
}

/// The rates of a field along an axis at a level; a field without fluxes has none.
fn field_rates(field: &Field, moves: &Moves, axis: u32, level: u32) -> Rates
    requires sound { IsMoves moves.now }
    requires axis { axis < 3 }
    requires level { level ≤ 10 }
    ensures right { result.right ≡ right_rate field.now moves.now axis level }
    ensures left { result.left ≡ left_rate field.now moves.now axis level }
    ensures right_bound { result.right ≤ 2000000000000000 }
    ensures left_bound { result.left ≤ 2000000000000000 }
{
    if has_flag(field.flags.as_slice(), Flag::WithFluxes) {
        rates_of(moves, axis, level)
    } else {
        Rates { right: 0, left: 0 }
    }
}

/// Both rates of a field at a level, added up over the axes in use.
#[tactic(auto, using(crate::proofs::RateLemmas::sum_range_more))]
fn rate_sum(dims: u32, level: u32, field: &Field, moves: &Moves) -> u64
    requires dims { dims ≤ 3 }
    requires level { level ≤ 10 }
    requires sound { IsMoves moves.now }
    ensures value { result ≡ rate_sum dims level field.now moves.now }
    ensures most { result ≤ 12000000000000000 }
{
    let mut sum = 0;
    for axis in 0..dims {
        let rates = field_rates(field, moves, axis, level);
        sum += rates.right + rates.left;
    }
    sum
}

/// The field with a number.
pub fn field_at(fields: &[Field], i: usize) -> &Field
    requires { i < length fields.now }
    ensures { slice_get fields.now i ≡ Some result.now }
{
    &fields[i]
}

/// How the field with a number moves.
pub fn moves_at(moves: &[Moves], i: usize) -> Moves
    requires { i < length moves.now }
    ensures { slice_get moves.now i ≡ Some result }
{
    moves[i]
}

/// Whether rates of this sum leave every total at least 0. By a scheme of order 2 a cell may count for
/// half as much again as it holds.
fn sum_fits(order: u32, sum: u64, denominator: u64) -> bool
    requires sum { sum ≤ 12000000000000000 }
    requires denominator { denominator ≤ greatest_factor }
    ensures { result ≡ sum_fits order sum denominator }
{
    if order == 2 {
        3 * sum <= 2 * denominator
    } else {
        sum <= denominator
    }
}

/// Whether the rates of each field at a level leave every total at least 0.
pub fn check_rates(
    alloc: Global,
    dims: u32,
    level: u32,
    denominator: u64,
    fields: &[Field],
    moves: &[Moves],
) -> Result<(), ProblemFault>
    requires dims { dims ≤ 3 }
    requires level { level ≤ 10 }
    requires denominator { denominator ≤ greatest_factor }
    requires as_many { length moves.now ≡ length fields.now }
    requires sound { All IsMoves moves.now }
    ensures { Gives result (rates_fit dims level denominator (zip fields.now moves.now)) }
{
    for i in 0..fields.len() {
        check_field(
            alloc,
            dims,
            level,
            denominator,
            field_at(fields, i),
            moves_at(moves, i),
        )?;
    }
    Ok(())
}

/// Whether the rates of a field at a level leave every total at least 0.
fn check_field(
    alloc: Global,
    dims: u32,
    level: u32,
    denominator: u64,
    field: &Field,
    moves: Moves,
) -> Result<(), ProblemFault>
    requires dims { dims ≤ 3 }
    requires level { level ≤ 10 }
    requires denominator { denominator ≤ greatest_factor }
    requires sound { IsMoves moves }
    ensures ok { OnOk result (sum_fits moves.order (rate_sum dims level field.now moves) denominator ≡ true) }
    ensures fault { IfErr result (λ fault. (fault ≡ no_memory)
        ⊎ ((sum_fits moves.order (rate_sum dims level field.now moves) denominator ≡ false)
        × (fault ≡ ProblemFault.Rates field.now.label (rate_sum dims level field.now moves)))) }
{
    let sum = rate_sum(dims, level, field, &moves);
    if sum_fits(moves.order, sum, denominator) {
        return Ok(());
    }
    let label = Name::copy_of(alloc, field.label.as_str())?;
    Err(ProblemFault::Rates { label, sum })
}
