//! Laws of the definitions.

ghost use Rattle.mesh_laws.specs.DropLaws.{CutLaw, DropsAreWhatWasCut};
ghost use Rattle.mesh_laws.specs.FileLaws.{FilesOfStopped, NoFilesAtStart};
ghost use Rattle.mesh_laws.specs.LookLaws.{LookLaw, LooksAddUp};
ghost use Rattle.mesh_laws.specs.PayLaws.{NothingFromNothing, PaysAtMost};
ghost use Rattle.mesh_laws.specs.ReactionLaws.{ReactionBalances, ReactionKeepsSum};
ghost use Rattle.mesh_laws.specs.RemapLaws.{RemapIsMesh, RemapKeepsTotals};
ghost use Rattle.mesh_laws.specs.StageLaws.{StageConserves};

/// The look is what is stored on a leaf, the sum of the children's looks where finer cells are stored, and the share of
/// the parent's look where coarser ones are; at every depth below a cell the looks add up to the cell's.
pub fn look_laws()
    ensures law { LookLaw }
    ensures add_up { LooksAddUp }
{}

/// A cell pays at most what it has in a stage, by either order, where the field's rates fit at the finest level: no
/// total falls below zero. What leaves a cell with nothing in it, and what enters it from where nothing is seen, is
/// nothing.
pub fn pay_laws()
    ensures pays { PaysAtMost }
    ensures nothing { NothingFromNothing }
{}

/// On any balanced tree a stage changes a field's total by what comes in and goes out through the faces of the domain
/// alone, by either order, where the field's rates fit.
pub fn conservation_law()
    ensures { StageConserves }
{}

/// On any tree of the same lattice a field's total is what it was; on a balanced one the mesh is a mesh again, with
/// just the tree's inner nodes.
pub fn remap_laws()
    ensures totals { RemapKeepsTotals }
    ensures mesh { RemapIsMesh }
{}

/// By any kernel a reaction keeps the sum over the fields, and a field's total changes by what is made and used of it.
pub fn reaction_laws()
    ensures sum { ReactionKeepsSum }
    ensures balance { ReactionBalances }
{}

/// A field that stays on a leaf keeps its totals there, any other is made zero, and what is dropped is exactly that.
pub fn drop_laws()
    ensures cut { CutLaw }
    ensures drops { DropsAreWhatWasCut }
{}

/// A run that stops at a cycle has the dumps of the opening and of the cycles before, and no history; one that stops at
/// the start has no file.
pub fn file_laws()
    ensures stopped { FilesOfStopped }
    ensures at_start { NoFilesAtStart }
{}
