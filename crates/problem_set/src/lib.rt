//! The problem of a run: what a deck says of the mesh, the fields, and how they are advanced.
//!
//! [`read_problem`] reads a deck. It gives a [`Problem`], or the first fault in a fixed order: of the
//! mesh, of its blocks, of time, of sparse fields, of the whole numbers; then of the field blocks, the
//! static boxes, the opening boxes, the reactions and the criteria, each kind in deck order; last
//! whether the rates leave every total at least 0, and whether the sum of all totals fits.
//! Blocks and keys that it does not know are not read.
#![tactic(auto)]

mod deck_sections;
mod fitting;
mod package_blocks;
mod packages;
mod problem;
mod problem_reader;
mod rates;
mod repeated_blocks;

pub use deck_entries::{Criterion, Moves, Reaction, StartBox, StaticAt};
pub use deck_generator::generate;
pub use deck_values::ProblemFault;
pub use mesh_settings::{FaceKind, Faces, Method, Mode};
pub use problem::Problem;
pub use problem_reader::read_problem;
pub use rates::Rates;
