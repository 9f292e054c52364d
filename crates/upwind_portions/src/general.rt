//! Portions of all totals of a run.

ghost use Rattle.std.specs.Prelude.{◌≡◌, ◌<◌, ◌≤◌, ◌+◌, ◌*◌, ◌^◌};
ghost use Rattle.upwind_portions.specs.Multiplier.{multiplier_of};

use crate::portions::Portions;

/// Portions by two products of 64-bit numbers, for totals below 2^62.
#[derive(Clone, Copy, Debug)]
pub struct General {
    pub rate: u64,
    pub denominator: u64,
    pub high: u64,
    pub low: u64,
    ghost positive: { 1 ≤ denominator },
    ghost most: { denominator ≤ 10 ^ 9 },
    ghost proper: { rate ≤ denominator },
    ghost scaled: { high * 2 ^ 64 + low ≡ multiplier_of (2 ^ 92) rate denominator },
}

impl General {
    /// The multiplier of a rate.
    pub fn of(rate: u64, denominator: u64) -> General
        requires least { 1 ≤ denominator }
        requires most { denominator ≤ 10 ^ 9 }
        requires proper { rate ≤ denominator }
        ensures rate { result.rate ≡ rate }
        ensures denominator { result.denominator ≡ denominator }
    {
        let factor = (u128::from(rate) << 92) / u128::from(denominator) + 1;
        General {
            rate,
            denominator,
            high: (factor / 0x1_0000_0000_0000_0000) as u64,
            low: (factor % 0x1_0000_0000_0000_0000) as u64,
        }
    }
}

impl Portions for General {
    ghost rate = { λ s. s.rate };

    ghost denominator = { λ s. s.denominator };

    ghost greatest = { λ _. 4611686018427387903 };

    fn portion(&self, total: u64) -> u64 {
        let whole = u128::from(total);
        ((whole * u128::from(self.high) + ((whole * u128::from(self.low)) >> 64)) >> 28) as u64
    }
}
