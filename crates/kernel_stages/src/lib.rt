//! One stage of a mesh by its kernels is the stage of the rules.
//!
//! [`cycle_kernels`] names the kernels of a cycle as functions of lists, by the numbers of blocks and letters. On
//! lists that have the totals of a mesh they make of each leaf and field what the rules of the mesh say: the ghosts
//! that due letters give are the look, pairs that are corrected by due letters are the mesh's pairs, and the update
//! by them is the stage. The functions carry laws: they have empty bodies, and their contracts are proved.
//!
//! | File of `specs/` | What a reader has to believe |
//! |---|---|
//! | `Letters` | between which leaves letters are due |
//! | `Stages` | what a stage by the kernels makes of a leaf (`IsStage`) |
#![tactic(auto)]

mod laws;

pub use laws::{letter_law, stage_law};
