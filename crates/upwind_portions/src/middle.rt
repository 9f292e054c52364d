//! Portions of totals of 32 bits.

ghost use Rattle.std.specs.Prelude.{◌≡◌, ◌<◌, ◌≤◌, ◌+◌, ◌*◌, ◌^◌};
ghost use Rattle.upwind_portions.specs.Multiplier.{multiplier_of};

use crate::portions::Portions;

/// Portions by two products of 32-bit numbers, for totals below 2^32.
#[derive(Clone, Copy, Debug)]
pub struct Middle {
    pub rate: u64,
    pub denominator: u64,
    pub high: u32,
    pub low: u32,
    ghost positive: { 1 ≤ denominator },
    ghost most: { denominator ≤ 10 ^ 9 },
    ghost proper: { rate ≤ denominator },
    ghost scaled: { high * 2 ^ 32 + low ≡ multiplier_of (2 ^ 62) rate denominator },
}

impl Middle {
    /// The multiplier of a rate.
    pub fn of(rate: u64, denominator: u64) -> Middle
        requires least { 1 ≤ denominator }
        requires most { denominator ≤ 10 ^ 9 }
        requires proper { rate ≤ denominator }
        ensures rate { result.rate ≡ rate }
        ensures denominator { result.denominator ≡ denominator }
    {
        let factor = ((u128::from(rate) << 62) / u128::from(denominator) + 1) as u64;
        Middle {
            rate,
            denominator,
            high: (factor / 0x1_0000_0000) as u32,
            low: (factor % 0x1_0000_0000) as u32,
        }
    }
}

impl Portions for Middle {
    ghost rate = { λ s. s.rate };

    ghost denominator = { λ s. s.denominator };

    ghost greatest = { λ _. 4294967295 };

    fn portion(&self, total: u64) -> u64 {
        let small = u64::from(total as u32);
        (small * u64::from(self.high) + ((small * u64::from(self.low)) >> 32)) >> 30
    }
}
