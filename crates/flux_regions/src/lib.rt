//! What a flux letter holds: the part that a finer leaf's lists give is the region of pairs that the rules name.
//!
//! The function carries a law: it has an empty body, and its contract is proved.
#![tactic(auto)]

mod laws;

pub use laws::flux_region_law;
