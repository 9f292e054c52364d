//! What each tier of portions promises.

ghost use Rattle.std.specs.Prelude.{◌≡◌, ◌≤◌, ℕ};
ghost use Rattle.mesh_num.specs.Portion.{portion};
ghost use Rattle.upwind_portions.specs.Multiplier.{MultiplierIsExact};

/// The portions of one rate, for totals up to a greatest one.
pub trait Portions: Copy {
    ghost rate: { Self → ℕ };

    ghost denominator: { Self → ℕ };

    ghost greatest: { Self → ℕ };

    /// The floor of `total * rate / denominator`.
    fn portion(&self, total: u64) -> u64
        requires { total ≤ greatest self.now }
        ensures { result ≡ portion total (rate self.now) (denominator self.now) };
}

/// The portions of a rate of 0: nothing, of any total.
#[derive(Clone, Copy, Debug)]
pub struct Still {
    pub denominator: u64,
}

impl Portions for Still {
    ghost rate = { λ _. 0 };

    ghost denominator = { λ s. s.denominator };

    ghost greatest = { λ _. 18446744073709551615 };

    fn portion(&self, _total: u64) -> u64 {
        0
    }
}

/// The product with a multiplier, divided by a power of two, is the portion, where the total is small enough for that
/// power.
pub fn multiplier_law()
    ensures { MultiplierIsExact }
{}
