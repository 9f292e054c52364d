//! The dense run: every field in every cell of every leaf, advanced cycle by cycle.
//!
//! A [`DenseRun`] is the run of a problem as the rules have it, on any tree: it opens on the tree of the static boxes,
//! advances all fields by the kernels of blocks, reckons beside it what is kept on which leaf, and goes over to the
//! next tree where that is due. Its value is the problem and how many cycles were run; all it tells follows from
//! these.
#![tactic(auto)]

mod dense_run;
mod fault;
mod files;
mod history;
mod kernel;
mod next;
mod opening;
mod totals;

pub use dense_run::DenseRun;
pub use fault::DenseFault;
