//! One rate, in every tier.

ghost use Rattle.std.specs.Prelude.{◌≡◌, ◌<◌, ◌≤◌, ◌^◌};
ghost use Rattle.std.specs.Option.{ForSome};
ghost use Rattle.std.proofs.Props.{props};

use crate::general::General;
use crate::middle::Middle;
use crate::narrow::Narrow;
use crate::portions::Still;

/// A rate over its denominator, with the multipliers of each tier. It is made once for a field, an axis, a direction
/// and a level, and serves any number of blocks.
#[derive(Clone, Copy, Debug)]
pub struct Fraction {
    pub rate: u64,
    pub denominator: u64,
    narrow: Option<Narrow>,
    middle: Middle,
    general: General,
    ghost narrow_rate: { ForSome narrow (λ n. n.rate ≡ rate) } by { Prim.hlevel props },
    ghost narrow_denominator: { ForSome narrow (λ n. n.denominator ≡ denominator) } by { Prim.hlevel props },
    ghost middle_rate: { middle.rate ≡ rate },
    ghost middle_denominator: { middle.denominator ≡ denominator },
    ghost general_rate: { general.rate ≡ rate },
    ghost general_denominator: { general.denominator ≡ denominator },
}

/// The fastest tier for the totals that were asked for.
#[derive(Clone, Copy, Debug)]
pub enum Tier {
    Nothing(Still),
    Small(Narrow),
    Word(Middle),
    Any(General),
}

impl Fraction {
    ghost use Rattle.upwind_portions.specs.Serves.{Serves};

    /// The multipliers of a rate.
    pub fn of(rate: u64, denominator: u64) -> Fraction
        requires least { 1 ≤ denominator }
        requires most { denominator ≤ 10 ^ 9 }
        requires proper { rate ≤ denominator }
        ensures rate { result.rate ≡ rate }
        ensures denominator { result.denominator ≡ denominator }
    {
        let narrow = if rate < denominator {
            Some(Narrow::of(rate, denominator))
        } else {
            None
        };
        Fraction {
            rate,
            denominator,
            narrow,
            middle: Middle::of(rate, denominator),
            general: General::of(rate, denominator),
        }
    }

    /// The fastest tier for totals up to a greatest one.
    pub fn tier(&self, greatest: u64) -> Tier
        requires { greatest < 2 ^ 62 }
        ensures { Serves self.now.rate self.now.denominator greatest result }
    {
        if self.rate == 0 {
            return Tier::Nothing(Still {
                denominator: self.denominator,
            });
        }
        if let Some(narrow) = self.narrow {
            if greatest <= u64::from(narrow.greatest) {
                return Tier::Small(narrow);
            }
        }
        if greatest <= u64::from(u32::MAX) {
            Tier::Word(self.middle)
        } else {
            Tier::Any(self.general)
        }
    }
}
