//! Laws of the journals of a cycle on a mesh.

ghost use Rattle.mesh_journals.specs.Laws.{JournalsEndByRules, JournalsHoldRules, MeshCyclesAreCycles};
ghost use Rattle.mesh_journals.specs.Laws.{MeshEventsAreCounted, MeshesAreNeverStuck};

/// A cycle of a mesh state that is fit is one of which all laws of journals hold. After each journal buffers and
/// letters have what the rules say. A journal that is not complete can go on; a complete one has exactly so many
/// events, and ends with what the rules leave of the cycle.
pub fn mesh_journal_law()
    ensures cycle { MeshCyclesAreCycles }
    ensures hold { JournalsHoldRules }
    ensures stuck { MeshesAreNeverStuck }
    ensures count { MeshEventsAreCounted }
    ensures end { JournalsEndByRules }
{}
