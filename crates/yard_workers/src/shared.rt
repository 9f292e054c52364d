use crate::machine::Machine;
use turn_yard::Entries;

/// A machine behind the turn, and whether a worker stopped for want of memory.
#[derive(Drop)]
pub struct Shared<M: Machine> {
    pub machine: M,
    pub stopped: bool,
}

impl<M: Machine> Entries for Shared<M> {
    ghost entries = { λ s. M.entries s.machine };

    ghost origin = { λ s. M.origin s.machine };

    ghost marks = { λ s. M.marks s.machine };

    fn mark(&self, p: u32) -> u64 {
        self.machine.mark(p)
    }
}
