//! What a mesh state stands for, copied.

ghost use Rattle.std.specs.Prelude.{◌≡◌, IfOk};
ghost use Rattle.block_layout.specs.declared.layout.Layout.{Layout};
ghost use Rattle.problem_set.specs.Settings.{Settings};
ghost use Rattle.cell_block.specs.State.{HasLayout};
ghost use Rattle.cell_block.specs.Rules.{IsStoredFor, IsWhole, StandsFor, state_in};

use crate::leaf_fields::{LeafFields, fields_of};
use block_tree::Tree;
use cell_block::MeshState;
use mesh_num::NoMemory;
use std::alloc::Global;
use std::marker::Model;
use std::sync::Arc;

/// The state with which a cycle starts.
#[derive(Drop)]
pub struct Opening {
    tree: Arc<Tree>,
    /// The cells of a block along each axis.
    cells: [u32; 3],
    /// How many fields there are.
    fields: u32,
    /// What is allocated on each leaf.
    copies: Vec<LeafFields>,
    /// The tag counter of each leaf.
    counters: Vec<u32>,
}

impl Model for Opening {
    ghost use Rattle.std.specs.Arc.{arc_value};
    ghost use Rattle.mesh_rules.specs.Cycle.{State};
    ghost use Rattle.cycle_openings.specs.Opened.{opened};

    ghost Value = { State };

    ghost view = { λ o. opened (arc_value o.tree) o.cells o.fields o.copies.items o.counters.items };
}

/// The tag counters of the leaves.
fn counters_of(alloc: Global, mesh: &MeshState) -> Result<Vec<u32>, NoMemory>
    ensures { IfOk result (λ counters. counters.items ≡ mesh.now.counters) }
{
    let leaves = mesh.tree().len();
    let mut counters = Vec::with_capacity(alloc, leaves as usize)?;
    for leaf in 0..leaves {
        counters.push(mesh.counter(leaf))?;
    }
    Ok(counters)
}

impl Opening {
    /// The state that a mesh state stands for, while nothing of it is lent. It costs what the leaves and the allocated
    /// places cost.
    pub fn of(alloc: Global, mesh: &MeshState) -> Result<Opening, NoMemory>
        requires { IsWhole mesh.now }
        ensures state { IfOk result (λ opening. (l : Layout) → HasLayout mesh.now l → opening ≡ state_in l mesh.now) }
        ensures stands { IfOk result (λ opening. (p : Settings) → IsStoredFor p mesh.now
            → StandsFor p mesh.now opening) }
    {
        let tree = mesh.share_tree()?;
        let copies = fields_of(alloc, mesh)?;
        let counters = counters_of(alloc, mesh)?;
        Ok(Opening {
            tree,
            cells: mesh.layout().cells,
            fields: mesh.fields(),
            copies,
            counters,
        })
    }
}
