//! Sparse pools: a pool is one name for many fields, told apart by numbers, of which a block holds
//! only those that are needed there.
//!
//! A [`Place`] is a field on a block, and a [`Mask`] says which places are held. [`is_idle`] and
//! [`note_check`] are the rule by which a place is freed again.
#![tactic(auto)]

mod column;
mod idle;
mod label;
mod mask;
mod place;

pub use idle::{Checked, is_idle, note_check};
pub use label::{NoMemory, label_of};
pub use mask::Mask;
pub use place::{PackKind, Place, Places};
