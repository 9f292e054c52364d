//! What a seat of the table knows. These types are for the proofs alone, and no value of them is made.
use std::collections::LinkedList;

/// What the seat of one worker knows.
pub struct Known {
    pub number: u64,
    pub origin: LinkedList<u64>,
    pub seen: LinkedList<LinkedList<u64>>,
    pub own: LinkedList<LinkedList<u64>>,
    pub noted: LinkedList<u64>,
}

/// What a seat of the table knows: of a worker, while it is in use, or of the yard, which counts the
/// seats that it made and keeps what returned seats knew.
pub struct View {
    pub known: Known,
    pub in_use: bool,
    pub holds: bool,
    pub made: u64,
    pub returned: LinkedList<Known>,
}
