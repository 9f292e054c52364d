//! What the kernels of blocks promise gives the functions of a cycle.
//!
//! The code works on the buffers of blocks, and its contracts say which numbers stand where. These laws say that
//! lists with such numbers are those of [`cycle_kernels`]: so a worker that calls the kernels does the work of the
//! machine.
//!
//! | Law | Kernels | What it gives |
//! |---|---|---|
//! | [`list_law`] | | a block's list is its own totals with its ghosts |
//! | [`ghost_laws`] | `fill`, `unfill`, `fill_outside` | parts of letters, and the ghosts of a block |
//! | [`flux_laws`] | `fluxes`, `slope_fluxes`, `update` | what passes faces, and the next totals |
//! | [`correction_laws`] | `gather`, `replace` | parts of flux letters, and corrected pairs |
//! | [`cell_laws`] | `react_block`, `wish_of` | totals and flows after reactions, and wishes |
//!
//! What passes the faces of the domain is what `passed` answers, and what a block wishes is the strongest of its
//! wishes: both stand in the definitions in the words of the kernels.
//!
//! The functions carry laws: they have empty bodies, and their contracts are proved.
#![tactic(auto)]

mod laws;

pub use laws::{cell_laws, correction_laws, flux_laws, ghost_laws, list_law};
