//! Reading the values of a deck: one key of a block at a time, and all blocks of a kind.
//!
//! A [`BlockReader`] reads the keys of one block, each by its form and within its range. [`names_of`]
//! and [`names_within`] find the blocks of a kind, in deck order. [`flags_of`] and [`ids_of`] read the
//! lists of a field. Whatever does not fit is a [`ProblemFault`], which names the block and the key.
#![tactic(auto)]

mod block_form;
mod block_names;
mod block_reader;
mod fault;
mod flags_and_ids;
mod numbers;

pub use block_form::{BlockForm, read_blocks};
pub use block_names::{names_of, names_within};
pub use block_reader::BlockReader;
pub use fault::ProblemFault;
pub use flags_and_ids::{flags_of, ids_of};
pub use numbers::is_name;
