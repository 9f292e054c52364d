//! The laws of the kernels.

ghost use Rattle.cycle_kernels.specs.Laws.{BlocksAreOwned};

/// Each block belongs to a list of tasks.
pub fn owner_law()
    ensures { BlocksAreOwned }
{}
