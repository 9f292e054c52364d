ghost use Rattle.std.specs.Prelude.{◌≡◌, ◌<◌, ◌^◌, ℕ, List, length, sum, All};
ghost use Rattle.package_fields.specs.Flow.{IsBelow};
ghost use Rattle.package_fields.specs.Kernel.{Reacted, KernelLaws, with_reacted};

use crate::flow::Flow;

/// A reaction of the fields of a cell with one another.
///
/// What a kernel does is a function of its type, of its code and of the totals of the cell, so a run
/// is told by the code. Each implementation proves the laws of [`KernelLaws`]: a cell of zeros stays
/// so and nothing is made or used of it; the sum over the cell is kept; and field by field the new
/// total and what was used are the old total and what was made, neither of which is more than 256
/// times the sum over the cell.
pub trait CellKernel {
    ghost code: { Self → List ℕ };

    ghost fields: { Self → ℕ };

    ghost reacts: { List ℕ → List ℕ → Reacted };

    /// Changes the totals of a cell, one for each field, and adds to each field's flow what was made
    /// and used of it. Nothing else of a flow changes.
    fn apply(&self, cell: &mut [u64], flows: &mut [Flow])
        requires cell_fields { length cell.old ≡ fields self.now }
        requires flow_fields { length flows.old ≡ fields self.now }
        requires small_cell { sum cell.old < 2 ^ 62 }
        requires small_flows { All (IsBelow (2 ^ 99)) flows.old }
        ensures cell { cell.new ≡ (reacts (code self.now) cell.old).totals }
        ensures flows { flows.new ≡ with_reacted flows.old (reacts (code self.now) cell.old) };

    ghost laws: { (kernel : Self) → KernelLaws (fields kernel) (reacts (code kernel)) };
}
