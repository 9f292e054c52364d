//! Packages declare fields, and a registry numbers them.
//!
//! A field has a label, the base of that label, the number of its variable where it belongs to a
//! sparse pool, and flags. A [`Package`] is a name with fields. The [`Registry`] takes packages one
//! by one and numbers their fields in the order of adding. It keeps that no two packages have one
//! name, that no two fields have one label, that each flag set is permitted, and that there are at
//! most 256 fields.
//!
//! A [`Flow`] tells what changes the total of a field in a cycle, and a [`CellKernel`] is a reaction
//! of the fields of a cell, with the laws that each of them keeps.
#![tactic(auto)]

mod fault;
mod field;
mod flag;
mod flow;
mod kernel;
mod name;
mod registry;

pub use fault::{FieldFault, NoMemory};
pub use field::{Field, Fields, Package};
pub use flag::{Flag, Flags, has_flag, is_permitted};
pub use flow::{Flow, Flows, balances};
pub use item_lists::Items;
pub use kernel::CellKernel;
pub use name::Name;
pub use registry::Registry;
