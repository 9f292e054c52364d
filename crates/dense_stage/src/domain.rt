//! What flows through the faces of the domain.

ghost use Rattle.std.specs.Prelude.{◌≡◌, length};
ghost use Rattle.block_tree.specs.Blocks.{leaves};
ghost use Rattle.mesh_rules.specs.Stage.{inflow_of, outflow_of};
ghost use Rattle.dense_stage.specs.Blocks.{FieldMesh, HavePairs, IsSoundMesh, mesh_in};
ghost use Rattle.dense_stage.specs.Faces.{AreFaceLists};

use crate::face_lists::FaceLists;
use block_layout::Layout;
use block_tree::Tree;
use leaf_stages::{LeafFlows, leaf_flows};

/// What flows in and out of all leaves.
pub(crate) fn domain_flows(tree: &Tree, layout: &Layout, faces: &FaceLists) -> LeafFlows
    ghost x: { FieldMesh }
    requires mesh { IsSoundMesh tree.now layout.now x }
    requires faces { AreFaceLists layout.now (length (leaves tree.now)) faces.now }
    requires pairs { HavePairs tree.now layout.now x faces.now }
    ensures inflow { result.inflow ≡ inflow_of x.settings (mesh_in tree.now x) x.field }
    ensures outflow { result.outflow ≡ outflow_of x.settings (mesh_in tree.now x) x.field }
{
    let mut inflow = 0u128;
    let mut outflow = 0u128;
    for leaf in 0..tree.len() {
        let at = leaf as usize;
        let flows = leaf_flows(tree, layout, leaf, &faces.right[at], &faces.left[at]);
        inflow += flows.inflow;
        outflow += flows.outflow;
    }
    LeafFlows { inflow, outflow }
}
