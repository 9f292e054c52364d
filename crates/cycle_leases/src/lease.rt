//! Leases, and the work on them.

use cycle_events::Drops;
use field_bufs::Bufs;
use ghost_buffers::Letter;
use item_lists::Items;
use mesh_rules::Wish;
use pack_cache::Pack;
use package_fields::Flows;
use sparse_pool::Places;

/// Letters in order.
pub type Letters = Items<Letter>;

/// Idle counts in the order of the places that they are about.
pub type Counts = Items<u32>;

/// Wishes of the blocks of a list, in their order.
pub type Wishes = Items<Wish>;

/// What a seat is lent for a task of a list.
#[derive(Debug, Drop)]
pub struct Lease {
    /// The list of tasks, which is that of a partition.
    pub list: u32,
    /// The number of the task: how many tasks the list has given.
    pub task: u32,
    /// The pack of its places, where no such pack was noted.
    pub fresh: Option<Pack>,
    /// The buffers of its places, by block, then field.
    pub bufs: Bufs,
    /// The letters that the task reads: for a task that fills ghosts or corrects fluxes those of its round, else none.
    pub letters: Letters,
    /// For a check, at how many checks in a row each place was idle; else none.
    pub counts: Counts,
    /// For an update, a reaction or a check, the places that are kept; else none.
    pub kept: Places,
}

/// The work on a lease.
#[derive(Debug, Drop)]
pub struct Finished {
    /// The list and the task of the lease.
    pub list: u32,
    pub task: u32,
    /// The buffers of the lease, as the task leaves them.
    pub bufs: Bufs,
    /// The letters that the task sends. Each has the number 0 until it is given.
    pub sent: Letters,
    /// The buffers that the task makes, by block, then field.
    pub made: Bufs,
    /// The places that it frees, by block, then field.
    pub freed: Places,
    /// By field, what passes faces of the domain and what reactions make and use; nothing of the fields past the end.
    pub flows: Flows,
    /// For a task that tags, what each block of the list wishes; else none.
    pub wishes: Wishes,
    /// For a check, the next idle count of each place; else none.
    pub counts: Counts,
    /// The places that are kept from now on; some may have been kept before.
    pub keeps: Places,
    /// By field, what is dropped; nothing of the fields past the end.
    pub drops: Drops,
}
