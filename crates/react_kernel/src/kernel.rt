ghost use Rattle.std.specs.Prelude.{◌≡◌, ◌+◌, ◌*◌, ◌<◌, ◌≤◌, ◌^◌, IfOk, length, sum, All, slice_index};
ghost use Rattle.package_fields.specs.Flow.{IsBelow};
ghost use Rattle.mesh_num.specs.Portion.{portion};
ghost use Rattle.mesh_rules.specs.Reaction.{added, taken};
ghost use Rattle.react_kernel.specs.Code.{CanReact, code_of, reacts as reacts_by_code};
ghost use Rattle.react_kernel.specs.Steps.{Moves};
ghost use Rattle.react_kernel.specs.ReactionLaws.{code_laws};

use mesh_num::{NoMemory, portion};
use package_fields::{CellKernel, Flow};
use problem_set::Reaction;
use std::alloc::Global;

/// The reactions of a problem, applied in each cell in their order. Each moves the portion
/// `num / den` of what is there of one field to another.
#[derive(Drop)]
pub struct ReactKernel {
    reactions: Vec<Reaction>,
    fields: u32,
    ghost few: { length reactions.items ≤ 256 },
    ghost sound: { All (CanReact fields) reactions.items },
}

impl ReactKernel {
    /// The kernel of these reactions in cells with so many fields.
    pub fn new(alloc: Global, reactions: &[Reaction], fields: u32) -> Result<ReactKernel, NoMemory>
        requires few { length reactions.now ≤ 256 }
        requires sound { All (CanReact fields) reactions.now }
        ensures code { IfOk result (λ kernel. ⟦<ReactKernel as CellKernel>⟧.code kernel
            ≡ code_of fields reactions.now) }
        ensures fields { IfOk result (λ kernel. ⟦<ReactKernel as CellKernel>⟧.fields kernel ≡ fields) }
    {
        let reactions = Vec::from_slice(alloc, reactions)?;
        Ok(ReactKernel { reactions, fields })
    }
}

impl CellKernel for ReactKernel {
    ghost code = { λ kernel. code_of kernel.fields kernel.reactions.items };

    ghost fields = { λ kernel. kernel.fields };

    ghost reacts = { reacts_by_code };

    fn apply(&self, cell: &mut [u64], flows: &mut [Flow]) {
        let reactions = self.reactions.as_slice();
        for reaction in reactions {
            react_once(reaction, cell, flows);
        }
    }

    ghost laws = { λ kernel. code_laws kernel.fields kernel.reactions.items kernel.sound kernel.few };
}

/// Applies one reaction in a cell.
fn react_once(reaction: &Reaction, cell: &mut [u64], flows: &mut [Flow])
    requires can_react { CanReact (length cell.old) reaction.now }
    requires as_many { length flows.old ≡ length cell.old }
    requires small_cell { sum cell.old < 2 ^ 62 }
    requires small_flows { All (IsBelow (2 ^ 100)) flows.old }
    ensures cell { let moved = portion (slice_index cell.old reaction.now.from) reaction.now.num reaction.now.den in
        cell.new ≡ added (taken cell.old reaction.now.from moved) reaction.now.to moved }
    ensures flows { let moved = portion (slice_index cell.old reaction.now.from) reaction.now.num reaction.now.den in
        Moves flows.old flows.new reaction.now.from reaction.now.to moved }
{
    let from = reaction.from as usize;
    let to = reaction.to as usize;
    let moved = portion(cell[from], reaction.num, reaction.den);
    cell[from] -= moved;
    cell[to] += moved;
    flows[from].used += u128::from(moved);
    flows[to].made += u128::from(moved);
}
