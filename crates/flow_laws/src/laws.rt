//! Laws of what enters and leaves the domain.

ghost use Rattle.flow_laws.specs.Flows.{DomainFlows};

/// Where the lists of a block have the mesh's pairs at all faces, what they have at the faces of the domain adds up to
/// the leaf's inflow and its outflow in the stage.
pub fn domain_flow_law()
    ensures { DomainFlows }
{}
