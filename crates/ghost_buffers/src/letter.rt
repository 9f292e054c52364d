//! Letters between blocks.

use crate::part::Part;
use morton_order::Side;
use package_fields::Items;

/// Parts by rising field.
pub type Parts = Items<Part>;

/// What a block sends to a leaf behind one of its sides in a stage.
#[derive(Debug, Drop)]
pub struct Letter {
    /// Its number in the cycle.
    pub number: u32,
    /// Whether it holds sums of what passes faces; else it holds cells for ghosts.
    pub flux: bool,
    pub stage: u32,
    /// The numbers of the leaves that send and receive it.
    pub from: u32,
    pub to: u32,
    /// The receiver's side across which it comes.
    pub side: Side,
    pub parts: Parts,
}
