ghost use Rattle.react_kernel.specs.Code.{ReactionsLaw};

/// Reactions keep the laws of kernels: nothing comes of nothing, the sum over a cell is kept, and
/// each field balances.
pub fn reactions_law()
    ensures { ReactionsLaw }
{}
