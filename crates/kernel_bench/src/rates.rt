//! The rates of the cells that are measured.

ghost use Rattle.std.specs.Prelude.{◌≡◌, ◌≤◌, ℕ};
ghost use Rattle.kernel_bench.specs.Fitting.{FitSlopes};
ghost use Rattle.upwind_fluxes.specs.Rates.{AreProper};

use crate::case::Ways;
use problem_set::Rates;
use upwind_fluxes::LevelRates;

/// What cells pay to the left.
fn left_of(ways: Ways) -> u64
    ensures { result ≤ 60 }
{
    match ways {
        Ways::One => 0,
        Ways::Both => 60,
    }
}

/// A tenth of a cell to the right along each axis, and six hundredths to the left, or nothing.
pub(crate) fn rates_of(ways: Ways) -> LevelRates
    ensures proper { AreProper result }
    ensures fit { (dims : ℕ) → dims ≤ 3 → FitSlopes dims result }
{
    let along = Rates {
        right: 100,
        left: left_of(ways),
    };
    LevelRates {
        denominator: 1000,
        axes: [along; 3],
    }
}
