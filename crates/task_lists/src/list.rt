ghost use Rattle.std.specs.Prelude.{◌≡◌, ◌<◌, ◌-◌, ◌^◌, [], true, IfOk, OnOk, OnErr, length, nat_lt, not, find};
ghost use Rattle.std.specs.List.{list_all};
ghost use Rattle.task_lists.specs.Tasks.{Fails, Listed, all_completed, first_unknown, is_completed, is_ready, with_completed, with_task};

use crate::fault::TaskFault;
use crate::task::{TaskId, TaskKind};
use smallvec::SmallVec;
use std::alloc::Global;
use std::marker::Model;

/// A task of a list.
#[derive(Drop)]
struct Task {
    kind: TaskKind,
    stage: u32,
    after: SmallVec<TaskId, 2>,
    is_complete: bool,
}

impl Model for Task {
    ghost use Rattle.task_lists.specs.Tasks.{Listed};

    ghost Value = { Listed };

    ghost view = { λ task. record {
      kind = task.kind;
      stage = task.stage;
      after = task.after.items;
      is_complete =
          task.is_complete;
    } };
}

/// Tasks, each after some of those before it. Their ids count from 0.
#[derive(Drop)]
pub struct TaskList {
    alloc: Global,
    tasks: Vec<Task>,
    left: usize,
}

impl Model for TaskList {
    ghost use Rattle.std.specs.Prelude.{◌≡◌, List, not, count_by};
    ghost use Rattle.task_lists.specs.Tasks.{Listed};

    ghost Value = { List Listed };

    ghost view = { λ list. list.tasks.items };

    ghost invariant = { λ list. list.left ≡ count_by (λ (t : Listed). not t.is_complete) list.tasks.items };
}

impl TaskList {
    /// A list with no task.
    pub fn new(alloc: Global) -> TaskList
        ensures { result ≡ [] }
    {
        TaskList {
            alloc,
            tasks: Vec::new(alloc),
            left: 0,
        }
    }

    /// Adds a task that is to run after others of the list, and answers its id. It is refused where
    /// one of these is not in the list, with the first of them. After a refusal the list is as before.
    pub fn add(&mut self, kind: TaskKind, stage: u32, after: &[TaskId]) -> Result<TaskId, TaskFault>
        requires { length self.old < 2 ^ 32 - 1 }
        ensures refused { Fails (first_unknown (length self.old) after.now) result }
        ensures id { IfOk result (λ id. id.number ≡ length self.old) }
        ensures added { OnOk result (self.new ≡ with_task self.old kind stage after.now) }
        ensures unchanged { OnErr result (self.new ≡ self.old) }
    {
        let count = self.tasks.len();
        if let Some(id) = find_unknown(count, after) {
            return Err(TaskFault::Unknown { id: id.number });
        }
        self.tasks.reserve(1)?;
        let after = SmallVec::from_slice(self.alloc, after)?;
        self.tasks.push_reserved(Task {
            kind,
            stage,
            after,
            is_complete: false,
        });
        self.left += 1;
        Ok(TaskId {
            number: count as u32,
        })
    }

    /// Whether a task is in the list, not complete, and all that it is after are complete.
    pub fn ready(&self, id: TaskId) -> bool
        ensures { result ≡ is_ready self.now id }
    {
        let tasks = self.tasks.as_slice();
        if (id.number as usize) < tasks.len() {
            can_start(tasks, id)
        } else {
            false
        }
    }

    /// Completes a task.
    pub fn complete(&mut self, id: TaskId)
        requires { is_ready self.old id ≡ true }
        ensures { self.new ≡ with_completed self.old id }
    {
        let task = &mut self.tasks[id.number as usize];
        task.is_complete = true;
        self.left -= 1;
    }

    /// Whether all tasks are complete.
    pub fn finished(&self) -> bool
        ensures { result ≡ all_completed self.now }
    {
        self.left == 0
    }
}

/// The first of some tasks that is not in a list of so many.
fn find_unknown(count: usize, after: &[TaskId]) -> Option<TaskId>
    ensures { result ≡ first_unknown count after.now }
{
    after.iter().copied().find(|id| id.number as usize >= count)
}

/// Whether a task is in the list and complete.
fn is_completed(tasks: &[Task], id: TaskId) -> bool
    ensures { result ≡ is_completed tasks.now id }
{
    let number = id.number as usize;
    if number < tasks.len() {
        let task = &tasks[number];
        task.is_complete
    } else {
        false
    }
}

/// Whether a task of the list is not complete, and all that it is after are.
fn can_start(tasks: &[Task], id: TaskId) -> bool
    requires { id.number < length tasks.now }
    ensures { result ≡ is_ready tasks.now id }
{
    let task = &tasks[id.number as usize];
    if task.is_complete {
        false
    } else {
        are_completed(tasks, task.after.as_slice())
    }
}

/// Whether some tasks are all complete.
fn are_completed(tasks: &[Task], ids: &[TaskId]) -> bool
    ensures { result ≡ list_all (is_completed tasks.now) ids.now }
{
    ids.iter().all(|id| is_completed(tasks, *id))
}
