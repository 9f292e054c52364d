//! What passes the faces of the domain at a block, by its lists, is the leaf's inflow and outflow.
//!
//! The function carries a law: it has an empty body, and its contract is proved.
#![tactic(auto)]

mod laws;

pub use laws::domain_flow_law;
