//! The laws of the kernels.

ghost use Rattle.cycle_kernel_laws.specs.Laws.{KernelsMeetTheLaws, MeshesAreOfCycles};
ghost use Rattle.cycle_kernel_laws.specs.Shown.{FluxesAreOwnPairs, GhostsSeeTheMesh};

/// The kernels of a cycle meet the laws that the machine of sparse buffers asks of kernels.
pub fn kernels_law()
    ensures { KernelsMeetTheLaws }
{}

/// Each mesh of a problem is the mesh of a cycle.
pub fn problem_law()
    ensures { MeshesAreOfCycles }
{}

/// On lists that hold a mesh the ghosts that the letters of a stage give are what the mesh shows there, and what
/// passes the faces of a block is the mesh's own pairs, but for faces behind which finer cells are stored.
pub fn shown_laws()
    ensures ghosts { GhostsSeeTheMesh }
    ensures pairs { FluxesAreOwnPairs }
{}
