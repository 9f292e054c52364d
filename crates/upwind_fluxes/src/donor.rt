//! The cell that pays at a face.

/// Which of the two cells at a face pays: the one below it along the axis, or the one above it.
#[derive(Clone, Copy, PartialEq, Eq, Debug)]
pub enum Donor {
    Below,
    Above,
}
