//! Letters of one field in the mail.

/// A letter's part: its number, the round that it was sent in, the side of the block that it is for, and the total
/// that it holds.
#[derive(Clone, Copy, PartialEq, Eq, Debug)]
pub struct Part {
    pub number: u64,
    pub round: u64,
    pub block: u64,
    pub high: bool,
    pub total: u64,
}
