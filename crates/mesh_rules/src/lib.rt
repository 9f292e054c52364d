//! The rules of the numbers: meshes and looks, faces and stages, reactions, tags, what is kept where, and the run.
//!
//! - `specs/` defines them for one to three axes in use. `docs/MODEL.md` says each rule in words, with an example and the
//!   name of its definition. Nothing in them speaks of the order in which blocks are advanced, of ghost zones or buffers;
//!   `specs/Due.antt` stands apart, and serves the machine that exchanges letters.
//! - The functions of `worked` carry examples with their numbers written out: they have empty bodies, and each clause is
//!   proved by computing the definitions.
//! - `mesh_laws` has the laws of the definitions.
#![tactic(auto)]

mod wish;
mod worked;

pub use wish::Wish;
pub use worked::{worked_cycles, worked_faces, worked_meshes, worked_runs};
