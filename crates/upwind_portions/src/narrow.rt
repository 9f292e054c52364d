//! Portions of small totals.

ghost use Rattle.std.specs.Prelude.{◌≡◌, ◌<◌, ◌≤◌, ◌-◌, ◌*◌, ◌/◌, ◌^◌};
ghost use Rattle.upwind_portions.specs.Multiplier.{multiplier_of};

use crate::portions::Portions;

/// Portions by one product of 32-bit numbers, for totals whose product with the denominator is below 2^32.
#[derive(Clone, Copy, Debug)]
pub struct Narrow {
    pub rate: u64,
    pub denominator: u64,
    pub factor: u32,
    /// The greatest total that it serves.
    pub greatest: u32,
    ghost positive: { 1 ≤ denominator },
    ghost scaled: { factor ≡ multiplier_of (2 ^ 32) rate denominator },
    ghost small: { greatest * denominator < 2 ^ 32 },
}

impl Narrow {
    /// The multiplier of a rate below the denominator.
    pub fn of(rate: u64, denominator: u64) -> Narrow
        requires least { 1 ≤ denominator }
        requires most { denominator ≤ 10 ^ 9 }
        requires proper { rate < denominator }
        ensures rate { result.rate ≡ rate }
        ensures denominator { result.denominator ≡ denominator }
        ensures greatest { result.greatest ≡ (2 ^ 32 - 1) / denominator }
    {
        Narrow {
            rate,
            denominator,
            factor: ((rate << 32) / denominator + 1) as u32,
            greatest: (u64::from(u32::MAX) / denominator) as u32,
        }
    }
}

impl Portions for Narrow {
    ghost rate = { λ s. s.rate };

    ghost denominator = { λ s. s.denominator };

    ghost greatest = { λ s. s.greatest };

    fn portion(&self, total: u64) -> u64 {
        let small = total as u32;
        (u64::from(small) * u64::from(self.factor)) >> 32
    }
}
