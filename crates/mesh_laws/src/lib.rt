//! Laws of the rules, for every balanced tree with one to three axes in use.
//!
//! `specs/` states them over the definitions of `mesh_rules`, and the functions here carry them: they have empty
//! bodies, and their contracts are proved. The lemmas that crates above use stand in `proofs/`.
#![tactic(auto)]

mod laws;

pub use laws::{
    conservation_law, drop_laws, file_laws, look_laws, pay_laws, reaction_laws, remap_laws,
};
