//! Work on leases.

ghost use Rattle.stage_works.specs.Works.{FluxesAreWork, UpdatesAreWork};

/// Buffers with what passes their faces are the work on a lease for that task, and so are updated buffers with what
/// flows and is dropped.
pub fn stage_works_law()
    ensures fluxes { FluxesAreWork }
    ensures updates { UpdatesAreWork }
{}
