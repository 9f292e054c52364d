//! A small machine over numbers: one field of one block of a row, and what each event of a cycle makes of it.
//!
//! Each function's contract ties it to the sparse machine of `sparse_rounds` over the kernels of a row
//! (`specs/Row.antt` there): whatever list of tasks a slot shows a place of, the new slot shows that place after the
//! event. The tests run whole cycles of it through legal orders of events that are drawn by chance, and compare each
//! end with the run stage by stage.
#![tactic(auto)]

mod events;
mod mail;
mod reading;
mod slot;
#[cfg(test)]
mod tests;

pub use events::{check, come, fill, flux, is_small, react, release, take, turn, update};
pub use mail::Part;
pub use reading::part_of;
pub use slot::{Buffer, Slot};
