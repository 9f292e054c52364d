//! What a stage without lists is.

ghost use Rattle.fused_stage.specs.Stage.{FittingRatesSuffice, IsUpdateAfterFluxes};

/// Where lists have what passes the faces of a block, their update may be made exactly where the stage may be, and
/// leaves the same totals.
pub fn update_law()
    ensures { IsUpdateAfterFluxes }
{}

/// Where the rates of all axes in use are together at most the denominator, a stage may be made of any totals below
/// 2^62.
pub fn fitting_rates_law()
    ensures { FittingRatesSuffice }
{}
