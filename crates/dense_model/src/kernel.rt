//! The reactions of a problem as a kernel.

ghost use Rattle.std.specs.Prelude.{◌≡◌, IfOk};
ghost use Rattle.problem_set.specs.SettingsOf.{settings_of};
ghost use Rattle.mesh_rules.specs.Fields.{field_count};
ghost use Rattle.mesh_rules.specs.Reaction.{kernel_of as kernel_of_settings};

use mesh_num::NoMemory;
use package_fields::CellKernel;
use problem_set::Problem;
use react_kernel::ReactKernel;
use std::alloc::Global;

/// The kernel of a problem's reactions.
pub(crate) fn kernel_of(alloc: Global, problem: &Problem) -> Result<ReactKernel, NoMemory>
    ensures fields { IfOk result (λ k. ⟦<ReactKernel as CellKernel>⟧.fields k ≡ field_count (settings_of problem.now)) }
    ensures reacts { IfOk result (λ k. ⟦<ReactKernel as CellKernel>⟧.reacts (⟦<ReactKernel as CellKernel>⟧.code k)
        ≡ kernel_of_settings (settings_of problem.now)) }
{
    let fields = problem.moves.len() as u32;
    let kernel = ReactKernel::new(alloc, problem.reactions.as_slice(), fields)?;
    Ok(kernel)
}
