//! Laws of one stage by its kernels.

ghost use Rattle.kernel_stages.specs.Stages.{StagesAreTheRules};
ghost use Rattle.kernel_stages.specs.Letters.{FluxLettersAreDue, GhostLettersAreDue};

/// The ghost letters of a stage are those between leaves of which one stands behind a side of the other,
/// and the flux letters those of them that come from a finer leaf.
pub fn letter_law()
    ensures ghosts { GhostLettersAreDue }
    ensures fluxes { FluxLettersAreDue }
{}

/// What the kernels make of the totals of a mesh in a stage is the stage of the rules, leaf by leaf and field by
/// field, with its flows through the faces of the domain and its calls.
pub fn stage_law()
    ensures { StagesAreTheRules }
{}
