//! What single blocks of a deck say: a field or a pool of fields, a static box, an opening box, a reaction, a
//! criterion.
//!
//! Each kind of block has a form, which [`deck_values::read_blocks`] reads the blocks of that kind with, in the order
//! of its keys, and a fact that holds of all that is read: [`FieldForm`], [`StaticForm`], [`BoxForm`],
//! [`ReactionForm`], [`CriterionForm`].
#![tactic(auto)]

mod entries;
mod entry_readers;
mod field_blocks;
mod field_form;

pub use entries::{Criterion, Moves, Reaction, StartBox, StaticAt};
pub use entry_readers::{BoxForm, CriterionForm, ReactionForm, StaticForm};
pub use field_blocks::FieldBlock;
pub use field_form::FieldForm;
