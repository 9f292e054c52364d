//! What cells pay by the second order.

ghost use Rattle.std.specs.Prelude.{◌≡◌, ◌≤◌, ◌<◌, ◌^◌};
ghost use Rattle.mesh_num.specs.Portion.{portion};
ghost use Rattle.stage_rules.specs.Rules.{limited};

use row_updates::RowRule;
use upwind_portions::Portions;

/// A row of faces of what the cells beside them pay: the first row beside it is that of the cells behind those that
/// pay, the second is those that pay, the third those ahead of them, beyond the face. The fourth is not read.
#[derive(Clone, Copy, Debug)]
pub struct SlopePay<P> {
    pub portions: P,
}

/// A cell's total reconstructed at the face ahead of it with a limited slope.
pub(crate) fn limited_total(behind: u64, here: u64, ahead: u64) -> u64
    requires here { here < 2 ^ 62 }
    requires ahead { ahead < 2 ^ 62 }
    ensures { result ≡ limited behind here ahead }
{
    let rise = here.saturating_sub(behind).min(ahead.saturating_sub(here)) >> 1;
    let fall = behind.saturating_sub(here).min(here.saturating_sub(ahead)) >> 1;
    here + rise - fall
}

impl<P: Portions> RowRule for SlopePay<P> {
    ghost gives = { λ s n. portion (limited n.first n.second n.third) (P.rate s.portions) (P.denominator s.portions) };

    ghost takes = { λ s n. (n.second ≤ P.greatest s.portions) × (n.third ≤ P.greatest s.portions)
        × (n.second < 2 ^ 62) × (n.third < 2 ^ 62) };

    fn update_row(
        &self,
        into: &mut [u64],
        first: &[u64],
        second: &[u64],
        third: &[u64],
        _fourth: &[u64],
    ) {
        let portions = self.portions;
        for i in 0..into.len() {
            into[i] = portions.portion(limited_total(first[i], second[i], third[i]));
        }
    }
}
