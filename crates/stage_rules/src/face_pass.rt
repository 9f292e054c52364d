//! Moving what passes the faces of an axis.

ghost use Rattle.std.specs.Prelude.{◌+◌, ◌-◌, ◌<◌};
ghost use Rattle.stage_rules.specs.Rules.{Passes, after_pass};

use row_updates::RowRule;

/// A row of cells gains and loses through its two faces of an axis: the first row beside it is what passes its low
/// faces to the right, the second its high faces to the right, the third its low faces to the left, the fourth its
/// high faces to the left.
#[derive(Clone, Copy, Debug)]
pub struct FacePass;

impl RowRule for FacePass {
    ghost gives = { λ _. after_pass };

    ghost takes = { λ _. Passes };

    fn update_row(
        &self,
        into: &mut [u64],
        first: &[u64],
        second: &[u64],
        third: &[u64],
        fourth: &[u64],
    ) {
        for i in 0..into.len() {
            into[i] = into[i] + (first[i] + fourth[i]) - (third[i] + second[i]);
        }
    }
}
