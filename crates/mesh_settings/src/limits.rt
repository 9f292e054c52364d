//! The greatest numbers that a deck may name, and how many blocks of a kind it may have.

/// The greatest total, and the greatest amount that a deck may name.
pub const GREATEST_TOTAL: u64 = 4_611_686_018_427_387_903;
/// The most cells of the mesh along an axis.
pub const GREATEST_SIZE: u64 = 4_194_304;
/// The fewest cells of the mesh, and of a block, along an axis that is in use.
pub const LEAST_CELLS: u64 = 4;
/// The most cells of a block along an axis.
pub const GREATEST_CELLS: u64 = 64;
/// The most root blocks.
pub const GREATEST_ROOTS: u64 = 65_536;
/// The most levels.
pub const GREATEST_LEVELS: u64 = 11;
/// The most tags in a row after which blocks are merged.
pub const GREATEST_DEREFINE_COUNT: u64 = 1000;
/// The most leaves of a partition.
pub const GREATEST_PACK: i128 = 65_536;
/// The most cycles of a run, and between two remeshings, dumps or frees.
pub const GREATEST_CYCLES: u64 = 65_535;
/// The most stages of a cycle.
pub const GREATEST_STAGES: u64 = 4;
/// The greatest denominator, velocity and diffusion coefficient.
pub const GREATEST_FACTOR: u64 = 1_000_000_000;
/// The most fields.
pub const MOST_FIELDS: usize = 256;
/// The most static boxes.
pub const MOST_STATICS: usize = 256;
/// The most opening boxes.
pub const MOST_BOXES: usize = 4096;
/// The most reactions.
pub const MOST_REACTIONS: usize = 256;
/// The most criteria.
pub const MOST_CRITERIA: usize = 64;
