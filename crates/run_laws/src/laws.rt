//! Laws of cycles and runs.

ghost use Rattle.run_laws.specs.BoundLaws.{NoSumPassesTheBound, NoTotalFallsBelowZero, RunsStayWithin, SumGrowsByInflow};
ghost use Rattle.run_laws.specs.FitLaws.{RunsAreFit};
ghost use Rattle.run_laws.specs.HistoryLaws.{CyclesBalance, HistoryBalances};
ghost use Rattle.run_laws.specs.MaskLaws.{CyclesAreZeroOutside, MasksStayFit, OpeningMaskFits};
ghost use Rattle.run_laws.specs.TreeLaws.{NextIsLeastTree, OpeningIsLeastTree, RunsStandOnTrees};
ghost use Rattle.run_laws.specs.ZeroThresholds.{ZeroThresholdRunsAreDense, ZeroThresholdRunsStopAlike, ZeroThresholdsAreUnmasked};

/// The opening tree and each next tree are the least ones, and each leaf changes by at most one level; so every mesh
/// of a run stands on a balanced tree with no more levels than the problem allows.
pub fn tree_laws()
    ensures opening { OpeningIsLeastTree }
    ensures next { NextIsLeastTree }
    ensures meshes { RunsStandOnTrees }
{}

/// In each cycle, from any state on a balanced tree and by any kernel, a field's total changes by the recorded flows
/// and drops alone; so each row of a run's history balances.
pub fn history_law()
    ensures cycles { CyclesBalance }
    ensures rows { HistoryBalances }
{}

/// In each cycle from a mesh of a problem no total falls below zero, the sum of all totals grows by at most what the
/// problem counts as inflow, and where there is room for that it is at most 2^62 - 1 on each mesh of the cycle. Each
/// state with which a cycle of a run starts leaves that room.
pub fn bound_laws()
    ensures paid { NoTotalFallsBelowZero }
    ensures grows { SumGrowsByInflow }
    ensures bounded { NoSumPassesTheBound }
    ensures runs { RunsStayWithin }
{}

/// After each stage of a cycle, after its reaction and after its check, a field that does not stay on a leaf is zero
/// in each of its cells. The opening's mask has a slot that fits for each leaf and field, and so has each mask after a
/// cycle on the same tree.
pub fn mask_laws()
    ensures outside { CyclesAreZeroOutside }
    ensures opening { OpeningMaskFits }
    ensures cycles { MasksStayFit }
{}

/// Each state with which a cycle of a run starts is fit, remeshing included.
pub fn fit_law()
    ensures { RunsAreFit }
{}

/// At zero thresholds a mask changes nothing. In each cycle from a mesh of a problem and a mask that fits it, by any
/// kernel, the meshes after each stage, after the reaction and after the check are those of the cycle in which every
/// field is on every block, what is kept follows from those meshes, and nothing is dropped. So each run stands after
/// each cycle on the mesh of the run that knows of no mask, remeshing included, and stops where that one does.
pub fn zero_threshold_laws()
    ensures cycles { ZeroThresholdsAreUnmasked }
    ensures runs { ZeroThresholdRunsAreDense }
    ensures stops { ZeroThresholdRunsStopAlike }
{}
