//! What blocks of a deck say: how a field moves, static boxes, opening boxes, reactions and criteria.

use mesh_settings::Method;

/// How a field moves, and what stands outside of the faces where it flows in.
#[derive(Clone, Copy)]
pub struct Moves {
    /// The velocity along each axis.
    pub v: [i64; 3],
    /// The diffusion coefficient.
    pub k: u64,
    /// The order of the scheme, 1 or 2.
    pub order: u32,
    /// The amount outside of the low and the high face of x1, of x2 and of x3, in this order.
    pub entry: [u64; 6],
}

/// A part of the mesh that is refined to a level from the start, in root cells with both ends included.
#[derive(Clone, Copy)]
pub struct StaticAt {
    pub level: u32,
    pub lo: [u32; 3],
    pub hi: [u32; 3],
}

/// An amount of a field in each root cell of a part of the mesh, both ends included, at the start.
#[derive(Clone, Copy)]
pub struct StartBox {
    /// The number of the field.
    pub field: u32,
    pub lo: [u32; 3],
    pub hi: [u32; 3],
    pub amount: u64,
}

/// In each cell, the portion `num / den` of one field that becomes another in a cycle.
#[derive(Clone, Copy)]
pub struct Reaction {
    /// The numbers of the two fields.
    pub from: u32,
    pub to: u32,
    pub num: u64,
    pub den: u64,
}

/// When a block is to be refined, and when it may be merged with its siblings.
#[derive(Clone, Copy)]
pub struct Criterion {
    /// The number of the field that is measured.
    pub field: u32,
    pub method: Method,
    /// Above this measure the block is to be refined.
    pub refine_tol: u64,
    /// Below this measure the block may be merged.
    pub derefine_tol: u64,
    /// The level from which on it is not refined further.
    pub max_level: u32,
}
