//! The multipliers of a field at a level.

ghost use Rattle.std.specs.Prelude.{◌≡◌, ◌<◌};
ghost use Rattle.upwind_fluxes.specs.Multipliers.{AreOf, fraction_at};
ghost use Rattle.upwind_fluxes.specs.Rates.{AreProper};

use crate::donor::Donor;
use crate::rates::LevelRates;
use upwind_portions::Fraction;

/// The multipliers of the rates of a field at a level, along x1, x2 and x3 in both directions.
#[derive(Clone, Copy, Debug)]
pub struct Multipliers {
    pub right1: Fraction,
    pub left1: Fraction,
    pub right2: Fraction,
    pub left2: Fraction,
    pub right3: Fraction,
    pub left3: Fraction,
}

impl Multipliers {
    /// The multipliers of these rates.
    pub fn of(rates: &LevelRates) -> Multipliers
        requires { AreProper rates.now }
        ensures { AreOf rates.now result }
    {
        let d = rates.denominator;
        Multipliers {
            right1: Fraction::of(rates.axes[0].right, d),
            left1: Fraction::of(rates.axes[0].left, d),
            right2: Fraction::of(rates.axes[1].right, d),
            left2: Fraction::of(rates.axes[1].left, d),
            right3: Fraction::of(rates.axes[2].right, d),
            left3: Fraction::of(rates.axes[2].left, d),
        }
    }

    /// Those of one axis and of the cells at one side of its faces.
    pub fn along(&self, axis: u32, donor: Donor) -> Fraction
        requires { axis < 3 }
        ensures { result ≡ fraction_at self.now axis donor }
    {
        match (axis, donor) {
            (0, Donor::Below) => self.right1,
            (0, Donor::Above) => self.left1,
            (1, Donor::Below) => self.right2,
            (1, Donor::Above) => self.left2,
            (_, Donor::Below) => self.right3,
            (_, Donor::Above) => self.left3,
        }
    }
}
