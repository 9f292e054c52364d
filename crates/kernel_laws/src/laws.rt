//! Laws of the kernels of a stage.

ghost use Rattle.kernel_laws.specs.Slopes.{SecondOrderPairs};
ghost use Rattle.kernel_laws.specs.Updated.{UpdatedIsStaged};

/// Where the ghosts of a block are the look, what `slope_fluxes` writes is the mesh's pair at each face but those
/// behind which finer cells are stored.
pub fn second_order_law()
    ensures { SecondOrderPairs }
{}

/// Where the lists of a block have the mesh's pairs at all faces, `update` leaves the stage of the mesh in its own
/// cells.
pub fn update_law()
    ensures { UpdatedIsStaged }
{}
