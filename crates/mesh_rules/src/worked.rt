//! Worked examples of the rules, with their numbers written out: each clause is proved by computing the definitions.

ghost use Rattle.mesh_rules.specs.WorkedMeshes.{EightShares, GradedLetters, GradedLooks, GradedRegions, PlaneRegions};
ghost use Rattle.mesh_rules.specs.WorkedFaces.{AlongThirdAxis, CornerStage, FinerInflow, GradedRow, OpenRow};
ghost use Rattle.mesh_rules.specs.WorkedFaces.{PeriodicRow, ReflectingRow, SecondOrder};
ghost use Rattle.mesh_rules.specs.WorkedCycles.{BelowThreshold, DroppedAfterReaction, DroppedAtCheck, DroppedInStage};
ghost use Rattle.mesh_rules.specs.WorkedCycles.{JumpSplits, MaskOverMerge, PeakSplits, Reacts, ReactsBack};
ghost use Rattle.mesh_rules.specs.WorkedCycles.{RootHasNoParent, SentAndFreed};
ghost use Rattle.mesh_rules.specs.WorkedRuns.{FilesOfRow, HistoryWithDrops};

/// Shares, looks one and two levels finer and coarser, what each kind of sender sends, and the letters of a stage.
pub fn worked_meshes()
    ensures shares { EightShares }
    ensures looks { GradedLooks }
    ensures regions { GradedRegions }
    ensures plane { PlaneRegions }
    ensures letters { GradedLetters }
{}

/// Stages on trees that do not change: closed, periodic and open faces, both orders, a graded tree, a corner of one,
/// and three axes in use.
pub fn worked_faces()
    ensures reflecting { ReflectingRow }
    ensures periodic { PeriodicRow }
    ensures second_order { SecondOrder }
    ensures graded { GradedRow }
    ensures opened { OpenRow }
    ensures finer_inflow { FinerInflow }
    ensures corner { CornerStage }
    ensures third_axis { AlongThirdAxis }
{}

/// What is kept where and what is dropped, reactions, and trees that change.
pub fn worked_cycles()
    ensures sent { SentAndFreed }
    ensures below { BelowThreshold }
    ensures dropped_in_stage { DroppedInStage }
    ensures dropped_at_check { DroppedAtCheck }
    ensures reacts { Reacts }
    ensures reacts_back { ReactsBack }
    ensures dropped_after_reaction { DroppedAfterReaction }
    ensures peak { PeakSplits }
    ensures jump { JumpSplits }
    ensures merge { MaskOverMerge }
    ensures root { RootHasNoParent }
{}

/// The names and texts of the files of two runs.
pub fn worked_runs()
    ensures files { FilesOfRow }
    ensures drops { HistoryWithDrops }
{}
