//! The portions of a row of totals.

ghost use Rattle.std.specs.Prelude.{◌≡◌, map, length, slice_index, ◌<◌, ℕ};
ghost use Rattle.mesh_num.specs.Portion.{portion};

use cell_boxes::RowMap;
use upwind_portions::Portions;

/// What of each total of a row passes a face.
#[derive(Clone, Copy)]
pub struct PortionRow<P> {
    pub portions: P,
}

impl<P: Portions> RowMap for PortionRow<P> {
    ghost gives = { λ s n. portion n (P.rate s.portions) (P.denominator s.portions) };

    ghost greatest = { λ s. P.greatest s.portions };

    fn map_row(&self, from: &[u64], into: &mut [u64]) {
        for i in 0..into.len() {
            into[i] = self.portions.portion(from[i]);
        }
    }
}
