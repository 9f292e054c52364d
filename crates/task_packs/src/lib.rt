//! The packs of tasks: those that are noted, under the epochs of their lists, and those that are made anew.
//!
//! A task is lent the places of its kind that have a buffer. A pack of them that was noted is theirs as long as the
//! epoch of the list is the pack's. [`kind_of`] is the kind of a task, [`noted_places`] the places of a noted pack.
//! Laws on functions with empty bodies, for every cycle of `cycle_events`:
//!
//! | Law | What it says |
//! |---|---|
//! | [`note_law`] | where all that is noted is true of a journal, what is found for a task has its places; and notes that hold go on to hold |
//! | [`pack_law`] | a task's pack is the one that is noted, or else a new one, which is true of the journal |
#![tactic(auto)]

mod kind;
mod laws;
mod noted;

pub use kind::kind_of;
pub use laws::{note_law, pack_law};
pub use noted::{copy_of, noted_places};

#[cfg(test)]
mod tests {
    use super::{kind_of, note_law, noted_places, pack_law};
    use pack_cache::{Pack, PackNotes};
    use sparse_pool::{PackKind, Place, Places};
    use std::alloc::Global;
    use std::test::Fail;

    #[test]
    fn laws_hold_at_any_types() {
        note_law::<u64, u64, u8, u16, u32, bool>();
        pack_law::<u64, u64, u8, u16, u32, bool>();
    }

    /// How many places are found at an epoch, where a pack of one place is noted at epoch 3.
    fn found_at(alloc: Global, epoch: u64) -> Option<usize> {
        let mut notes = PackNotes::new(alloc, 1).ok()?;
        let mut places = Places::new(alloc);
        places.push(Place { block: 0, field: 1 }).ok()?;
        notes.note(Pack {
            partition: 0,
            kind: kind_of(1, 2),
            epoch: 3,
            places,
        });
        let found = noted_places(alloc, &notes, 0, PackKind::Flux, epoch).ok()?;
        Some(found?.len())
    }

    #[test]
    fn a_pack_is_found_at_its_epoch_alone(rt: HostRuntime) -> Result<(), Fail> {
        assert!(rt; found_at(rt.alloc(), 3) == Some(1));
        assert!(rt; found_at(rt.alloc(), 4).is_none());
        Ok(())
    }
}
