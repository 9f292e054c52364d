//! Counts of letters by list.

ghost use Rattle.std.specs.Prelude.{◌≡◌, ◌∷◌, [], IfOk, length};
ghost use Rattle.due_counts.specs.Counts.{AddsAll, AreCounts, CanAdd};

use mesh_num::NoMemory;
use std::alloc::Global;

/// Counts of letters: of those to each list, and of all.
#[derive(Debug, Drop)]
pub(crate) struct Counts {
    pub each: Vec<u32>,
    pub all: u32,
}

impl Counts {
    /// Counts of no letter to so many lists.
    pub fn new(alloc: Global, lists: u32) -> Result<Counts, NoMemory>
        ensures lists { IfOk result (λ counts. length counts.each.items ≡ lists) }
        ensures none { IfOk result (AreCounts []) }
    {
        let each = vec![in alloc; 0u32; lists as usize]?;
        Ok(Counts { each, all: 0 })
    }

    /// Counts one more letter to a list.
    pub fn add(&mut self, list: u32)
        requires { CanAdd (list ∷ []) self.old }
        ensures { AddsAll (list ∷ []) self.old self.new }
    {
        self.each[list as usize] += 1;
        self.all += 1;
    }
}
