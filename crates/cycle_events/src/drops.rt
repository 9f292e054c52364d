//! What a cycle dropped.

use item_lists::Items;

/// What was dropped of each field, in the order of their numbers.
pub type Drops = Items<u128>;
