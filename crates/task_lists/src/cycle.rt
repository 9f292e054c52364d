ghost use Rattle.std.specs.Prelude.{◌≡◌, ◌≤◌, ◌<◌, IfOk, Some, length, replicate};
ghost use Rattle.task_lists.specs.Cycle.{CycleTasks, next_of, stages_over, with_next};

use crate::fault::NoMemory;
use std::alloc::Global;
use std::marker::Model;

/// The tasks of a cycle on all partitions.
///
/// On each partition every task is after the one before it. Those of the stages are the first region
/// and the three last ones the second, which starts when the first is complete on all partitions.
#[derive(Debug, Drop)]
pub struct Collection {
    stages: u32,
    completed: Vec<u32>,
    waiting: usize,
}

impl Model for Collection {
    ghost use Rattle.task_lists.specs.Cycle.{CycleTasks, IsCollection};

    ghost Value = { CycleTasks };

    ghost view = { λ c. record { stages = c.stages; completed = c.completed.items } };

    ghost invariant = { λ c. IsCollection c.stages c.completed.items c.waiting };
}

impl Collection {
    /// The tasks of a cycle with so many stages, on so many partitions, of which none is complete.
    pub fn for_cycle(alloc: Global, partitions: u32, stages: u32) -> Result<Collection, NoMemory>
        requires some { 1 ≤ partitions }
        requires least { 1 ≤ stages }
        requires most { stages ≤ 4 }
        ensures { IfOk result (λ c. c ≡ record { stages = stages; completed = replicate partitions 0 }) }
    {
        let completed = vec![in alloc; 0u32; partitions as usize]?;
        Ok(Collection {
            stages,
            completed,
            waiting: partitions as usize,
        })
    }

    /// The least task of a partition that is ready, or None where none is.
    pub fn next(&self, p: u32) -> Option<u32>
        requires { p < length self.now.completed }
        ensures { result ≡ next_of self.now p }
    {
        let task = self.completed[p as usize];
        let last = 6 * self.stages;
        let count = last + 3;
        if task >= count {
            return None;
        }
        if task < last {
            return Some(task);
        }
        if self.is_over() { Some(task) } else { None }
    }

    /// Whether the stages are over on all partitions.
    fn is_over(&self) -> bool
        ensures { result ≡ stages_over self.now }
    {
        self.waiting == 0
    }

    /// Completes the next task of a partition.
    pub fn complete(&mut self, p: u32, task: u32)
        requires partition { p < length self.old.completed }
        requires next { next_of self.old p ≡ Some task }
        ensures { self.new ≡ with_next self.old p }
    {
        let last = 6 * self.stages;
        let done = task + 1;
        self.completed[p as usize] = done;
        self.waiting -= usize::from(done == last);
    }
}
