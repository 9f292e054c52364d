//! The tree of blocks: what its leaves are, when it is balanced two to one, the least balanced tree that holds what is
//! wanted, and what lies behind a side of a leaf.
#![tactic(auto)]

mod balance;
mod boxes;
mod fault;
mod grow;
mod laws;
mod neighbour;
mod nodes;
mod opening;
mod table;
mod tags;
mod tree;

pub use boxes::StaticBox;
pub use fault::TreeFault;
pub use laws::{
    behind_laws, change_law, inner_nodes_law, least_tree_law, leaves_law, next_tree_laws,
    worked_trees,
};
pub use neighbour::{Behind, FineLeaves};
pub use tags::Tag;
pub use tree::Tree;
