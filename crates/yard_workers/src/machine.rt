//! What workers run.
ghost use Rattle.std.specs.Prelude.{◌≡◌, ℕ, ◌<◌, [], List, IfOk, OnErr, Some};
ghost use Rattle.turn_yard.specs.History.{AddsAtMostOne, OnlyRises};
ghost use Rattle.yard_workers.specs.Machine.{AreNotes, IsAnswer, IsOut, IsOutAfter, IsReturned, KeepsNotes, Was, risen};

use std::marker::{Send, Sync};
use turn_yard::{Entries, NoMemory};

/// What a machine answers to a worker that asks for work.
#[derive(Drop)]
pub enum Answer<L> {
    /// A lease, which is worked without the turn. It is of this partition and this task.
    Lease { lease: L, partition: u32, task: u32 },
    /// Something was done under the turn. The mark of this partition alone may have risen.
    Delivered { partition: u32 },
    /// Nothing is ready before some lease comes back.
    NotYet,
    /// The history is complete.
    Done,
    /// Memory ran out, and nothing was done.
    NoMemory,
}

/// A value that workers run: it hands out leases under the turn, and takes the finished work back under the turn.
pub trait Machine: Entries + Send + Drop {
    /// What all workers read while they work.
    type Setting: Sync;

    /// What one worker keeps from one lease to the next, such as packs.
    type Notes: Drop + Send;

    /// A piece of work that is out.
    type Lease: Drop + Send;

    /// What was made of a lease.
    type Finished: Drop + Send;

    // How many partitions a machine with this origin has.
    ghost parts: { List ℕ → ℕ };

    // The setting is the one that a machine with this origin was made in.
    ghost suits: { Self.Setting → List ℕ → Type 0 };

    // A history is complete: nothing is left to be done.
    ghost complete: { List ℕ → List (List ℕ) → Type 0 };

    // The notes are true of a history.
    ghost noted: { Self.Notes → List ℕ → List (List ℕ) → Type 0 };

    // A history at whose end the seat with this number has just got the lease.
    ghost leased: { List ℕ → List (List ℕ) → ℕ → Self.Lease → Type 0 };

    // What was made of the lease is what is to be made of it.
    ghost worked: { Self.Setting → Self.Lease → Self.Finished → Type 0 };

    /// How many partitions the machine has.
    fn parts(&self) -> u32
        ensures { result ≡ parts (Self.origin self.now) };

    /// A worker's notes at its beginning.
    fn notes(setting: &Self::Setting) -> Result<Self::Notes, NoMemory>
        ensures { (o : List ℕ) → suits setting.now o → IfOk result (λ n. noted n o []) };

    /// Drops those notes of a partition which this epoch makes stale.
    fn drop_stale(notes: &mut Self::Notes, partition: u32, epoch: u64)
        requires { AreNotes parts noted notes.old partition }
        ensures { KeepsNotes noted notes.old notes.new };

    /// Gives the seat a lease, or does something at once.
    fn ask(&mut self, seat: u32, notes: &Self::Notes) -> Answer<Self::Lease>
        requires notes { Was (noted notes.now (Self.origin self.old)) (Self.entries self.old) }
        ensures origin { Self.origin self.new ≡ Self.origin self.old }
        ensures entries { AddsAtMostOne seat (Self.entries self.old) (Self.entries self.new) }
        ensures marks { OnlyRises (risen result) (Self.marks self.old) (Self.marks self.new) }
        ensures answer { IsAnswer leased complete parts (Self.origin self.old) seat (Self.entries self.old)
            (Self.entries self.new) result };

    /// Works a lease, and notes what is new in it.
    fn work(
        setting: &Self::Setting,
        notes: &mut Self::Notes,
        lease: Self::Lease,
    ) -> Result<Self::Finished, NoMemory>
        requires { IsOut suits leased noted setting.now lease notes.old }
        ensures notes { IsOutAfter suits leased noted setting.now lease notes.old notes.new }
        ensures work { IfOk result (worked setting.now lease) };

    /// Takes back what was made of a lease, and tells the partition of which alone the mark may have risen. After want
    /// of memory the machine is as before.
    fn give(&mut self, seat: u32, done: Self::Finished) -> Result<u32, NoMemory>
        requires { IsReturned suits leased worked (Self.origin self.old) seat (Self.entries self.old) done }
        ensures origin { Self.origin self.new ≡ Self.origin self.old }
        ensures entries { AddsAtMostOne seat (Self.entries self.old) (Self.entries self.new) }
        ensures marks { IfOk result (λ p. OnlyRises (Some p) (Self.marks self.old) (Self.marks self.new)) }
        ensures refused { OnErr result ((Self.entries self.new ≡ Self.entries self.old)
            × (Self.marks self.new ≡ Self.marks self.old)) };
}
