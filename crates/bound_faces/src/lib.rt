//! What stands beyond a face of the domain.
//!
//! [`ghost_of`] says which total a cell beyond a face has, and [`fill_outside`] writes it into the two layers of
//! ghosts there.
#![tactic(auto)]

mod filling;
mod outside;

pub use filling::fill_outside;
pub use outside::ghost_of;
