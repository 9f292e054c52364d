ghost use Rattle.std.specs.Prelude.{◌≡◌, ◌<◌, IfOk, None, Some, List, length, option_copied, replicate, slice_set};
ghost use Rattle.pack_cache.specs.Notes.{Noted, NotesLaw, at_epoch, fresh, none_noted, noted_under, of_kind, with_kind, with_note, without_stale};

use crate::pack::Pack;
use mesh_num::NoMemory;
use sparse_pool::PackKind;
use std::alloc::Global;
use std::marker::Model;

/// Packs that are noted, one of a kind of each partition at most.
#[derive(Debug, Drop)]
pub struct PackNotes {
    partitions: Vec<PartitionNotes>,
}

impl Model for PackNotes {
    ghost use Rattle.std.specs.Prelude.{List};
    ghost use Rattle.pack_cache.specs.Notes.{Noted};

    ghost Value = { List Noted };

    ghost view = { λ notes. notes.partitions.items };
}

impl PackNotes {
    /// Notes for so many partitions, with no pack.
    pub fn new(alloc: Global, partitions: u32) -> Result<PackNotes, NoMemory>
        ensures { IfOk result (λ notes. notes ≡ replicate partitions none_noted) }
    {
        let mut made = Vec::with_capacity(alloc, partitions as usize)?;
        for _ in 0..partitions {
            made.push(PartitionNotes::new())?;
        }
        Ok(PackNotes { partitions: made })
    }

    /// The pack that is noted under a partition, a kind and an epoch, or None where none is.
    pub fn lookup(&self, p: u32, kind: PackKind, epoch: u64) -> Option<&Pack>
        requires { p < length self.now }
        ensures { option_copied result ≡ noted_under self.now p kind epoch }
    {
        self.partitions[p as usize].find(kind, epoch)
    }

    /// Notes a pack in the place of the one under its partition and kind.
    pub fn note(&mut self, pack: Pack)
        requires { pack.partition < length self.old }
        ensures { self.new ≡ with_note self.old pack }
    {
        let partition = &mut self.partitions[pack.partition as usize];
        partition.set(pack);
    }

    /// Drops the packs of a partition that have another epoch.
    pub fn drop_stale(&mut self, p: u32, epoch: u64)
        requires { p < length self.old }
        ensures { self.new ≡ without_stale self.old p epoch }
    {
        let partition = &mut self.partitions[p as usize];
        partition.drop_stale(epoch);
    }
}

/// The packs that are noted of a partition.
#[derive(Debug, Drop)]
struct PartitionNotes {
    all: Option<Pack>,
    ghost_zones: Option<Pack>,
    fluxes: Option<Pack>,
}

impl Model for PartitionNotes {
    ghost use Rattle.pack_cache.specs.Notes.{Noted};

    ghost Value = { Noted };

    ghost view = { λ notes. record { all = notes.all; ghost_zones = notes.ghost_zones; fluxes = notes.fluxes } };
}

impl PartitionNotes {
    /// Notes with no pack.
    fn new() -> PartitionNotes
        ensures { result ≡ none_noted }
    {
        PartitionNotes {
            all: None,
            ghost_zones: None,
            fluxes: None,
        }
    }

    /// The pack of a kind, where it has this epoch.
    fn find(&self, kind: PackKind, epoch: u64) -> Option<&Pack>
        ensures { option_copied result ≡ at_epoch epoch (of_kind self.now kind) }
    {
        let noted = match kind {
            PackKind::All => &self.all,
            PackKind::Ghost => &self.ghost_zones,
            PackKind::Flux => &self.fluxes,
        };
        match noted {
            Some(pack) if pack.epoch == epoch => Some(pack),
            _ => None,
        }
    }

    /// Notes a pack in the place of the one of its kind.
    fn set(&mut self, pack: Pack)
        ensures { self.new ≡ with_kind self.old pack.kind (Some pack) }
    {
        match pack.kind {
            PackKind::All => self.all = Some(pack),
            PackKind::Ghost => self.ghost_zones = Some(pack),
            PackKind::Flux => self.fluxes = Some(pack),
        }
    }

    /// Drops the packs that have another epoch.
    fn drop_stale(&mut self, epoch: u64)
        ensures { self.new ≡ fresh epoch self.old }
    {
        drop_unless(&mut self.all, epoch);
        drop_unless(&mut self.ghost_zones, epoch);
        drop_unless(&mut self.fluxes, epoch);
    }
}

/// Drops a pack that has another epoch.
fn drop_unless(noted: &mut Option<Pack>, epoch: u64)
    ensures { noted.new ≡ at_epoch epoch noted.old }
{
    let is_stale = match noted {
        Some(pack) => pack.epoch != epoch,
        None => false,
    };
    if is_stale {
        *noted = None;
    }
}

/// What notes are good for.
pub fn notes_law()
    ensures { (notes : List Noted) → NotesLaw notes }
{}
