//! What cells beside one another pay each other.

ghost use Rattle.std.specs.Prelude.{◌≡◌, ℕ, ◌+◌, ◌-◌, ◌≤◌, ◌<◌, ◌^◌};
ghost use Rattle.mesh_num.specs.Portion.{portion};
ghost use Rattle.row_updates.specs.Numbers.{Numbers};

use crate::start::Start;
use row_updates::RowRule;
use upwind_portions::Portions;

/// A row of new totals: the first row beside it is that of the cells below along the axis, the second and the third
/// are the cells themselves, the fourth the cells above. Through a closed face nothing is paid, which a rate of 0
/// says.
///
/// `from_below` is what the cells below pay through the low faces, `from_above` what those above pay through the high
/// ones, `to_below` and `to_above` what the cells themselves pay.
#[derive(Clone, Copy, Debug)]
pub(crate) struct NeighbourPass<S, A, B, C, D> {
    pub(crate) start: S,
    pub(crate) from_below: A,
    pub(crate) from_above: B,
    pub(crate) to_below: C,
    pub(crate) to_above: D,
}

impl<S: Start, A: Portions, B: Portions, C: Portions, D: Portions> RowRule
    for NeighbourPass<S, A, B, C, D> {
    ghost gives = { λ s n. S.begins s.start n.own n.second
        + (portion n.first (A.rate s.from_below) (A.denominator s.from_below)
        + portion n.fourth (B.rate s.from_above) (B.denominator s.from_above))
        - (portion n.second (C.rate s.to_below) (C.denominator s.to_below)
        + portion n.third (D.rate s.to_above) (D.denominator s.to_above)) };

    ghost takes = { λ s n. (n.first ≤ A.greatest s.from_below) × (n.fourth ≤ B.greatest s.from_above)
        × (n.second ≤ C.greatest s.to_below) × (n.third ≤ D.greatest s.to_above)
        × (portion n.second (C.rate s.to_below) (C.denominator s.to_below)
        + portion n.third (D.rate s.to_above) (D.denominator s.to_above) ≤ S.begins s.start n.own n.second)
        × (S.begins s.start n.own n.second
        + (portion n.first (A.rate s.from_below) (A.denominator s.from_below)
        + portion n.fourth (B.rate s.from_above) (B.denominator s.from_above)) < 2 ^ 63) };

    fn update_row(
        &self,
        into: &mut [u64],
        first: &[u64],
        second: &[u64],
        third: &[u64],
        fourth: &[u64],
    ) {
        let start = self.start;
        let from_below = self.from_below;
        let from_above = self.from_above;
        let to_below = self.to_below;
        let to_above = self.to_above;
        for i in 0..into.len() {
            let gain = from_below.portion(first[i]) + from_above.portion(fourth[i]);
            let loss = to_below.portion(second[i]) + to_above.portion(third[i]);
            into[i] = start.begin(into[i], second[i]) + gain - loss;
        }
    }
}
