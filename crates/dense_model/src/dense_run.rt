//! The run of a problem.

ghost use Rattle.std.specs.Prelude.{◌≡◌, ◌+◌, ◌-◌, ◌++◌, ◌<◌, ◌≤◌, ◌^◌, ◌↔◌, IfOk, IfErr, OnOk, OnErr, IsTrue, length, map, replicate};
ghost use Rattle.package_fields.specs.Flow.{no_flow};
ghost use Rattle.problem_set.specs.SettingsOf.{settings_of};
ghost use Rattle.mesh_rules.specs.Files.{lines_of_cycle};
ghost use Rattle.mesh_rules.specs.Reaction.{kernel_of};
ghost use Rattle.mesh_texts.specs.Dump.{joined};
ghost use Rattle.dense_model.specs.Files.{file_of, files_until};
ghost use Rattle.dense_model.specs.RunFiles.{CannotGoOn, CannotStart, IsRunning, dump_after, leaves_after, run_of, total_after};
ghost use Rattle.dense_model.specs.Next.{tree_after};

use crate::fault::DenseFault;
use crate::files::files_until;
use crate::history::entries_after;
use crate::next::{Next, next_cycle};
use crate::opening::open;
use crate::totals::sum_of_totals;
use block_layout::Layout;
use block_tree::Tree;
use dense_cycle::{DenseState, Room};
use mesh_num::NoMemory;
use mesh_outside::Files;
use mesh_texts::{DumpWalk, dump_text, push_history_lines};
use package_fields::{Flow, Flows, Items};
use problem_set::Problem;
use std::alloc::Global;
use std::marker::Model;
use std::mem;

/// The dense run of a problem, after some of its cycles: every field in every cell of every leaf, and what is kept of
/// them.
#[derive(Drop)]
pub struct DenseRun<'a> {
    alloc: Global,
    problem: &'a Problem,
    cycle: u32,
    layout: Layout,
    tree: Tree,
    state: DenseState,
    flows: Flows,
    drops: Items<u128>,
    /// What the stages of the last cycle were made in.
    room: Room,
}

impl<'a> Model for DenseRun<'a> {
    ghost use Rattle.problem_set.specs.SettingsOf.{settings_of};
    ghost use Rattle.dense_model.specs.RunFiles.{RunAt};
    ghost use Rattle.dense_model.specs.Stands.{Stands};

    ghost Value = { RunAt };

    ghost view = { λ r. record { problem = settings_of r.problem.now; cycle = r.cycle } };

    ghost invariant = { λ r. Stands (settings_of r.problem.now) r.cycle r.tree r.layout r.state r.flows r.drops };
}

/// Goes over to the next tree where there is one.
fn go_over(tree: &mut Tree, next: Option<Tree>)
    ensures { tree.new ≡ tree_after tree.old next }
{
    if let Some(next) = next {
        *tree = next;
    }
}

/// Nothing for each field.
fn no_flows(alloc: Global, problem: &Problem) -> Result<(Flows, Items<u128>), NoMemory>
    ensures flows { IfOk result (λ r. r.0 ≡ replicate (length problem.now.moves) no_flow) }
    ensures drops { IfOk result (λ r. r.1 ≡ replicate (length problem.now.moves) 0) }
{
    let none = Flow {
        inflow: 0,
        outflow: 0,
        made: 0,
        used: 0,
    };
    let flows = vec![in alloc; none; problem.moves.len()]?;
    let drops = vec![in alloc; 0u128; problem.moves.len()]?;
    Ok((Flows::from_vec(flows), Items::from_vec(drops)))
}

impl<'a> DenseRun<'a> {
    /// The run before its first cycle: on the tree of the static boxes, each cell with its share of the amounts of the
    /// boxes that hold it. TooManyAtStart comes where that tree has more than 65,536 leaves; TooManyBlocks never
    /// comes.
    pub fn start(alloc: Global, problem: &'a Problem) -> Result<DenseRun<'a>, DenseFault>
        ensures started { IfOk result (λ run. run ≡ record { problem = settings_of problem.now; cycle = 0 }) }
        ensures running { OnOk result (IsRunning (run_of (settings_of problem.now) 0)) }
        ensures fault { IfErr result (CannotStart (settings_of problem.now)) }
    {
        let opened = open(alloc, problem)?;
        let (flows, drops) = no_flows(alloc, problem)?;
        Ok(DenseRun {
            alloc,
            problem,
            cycle: 0,
            layout: opened.layout,
            tree: opened.tree,
            state: opened.state,
            flows,
            drops,
            room: Room::empty(alloc),
        })
    }

    /// Runs one more cycle. TooManyBlocks comes where the next tree has more than 65,536 leaves, with the number of
    /// the cycle and how many they are; TooManyAtStart never comes. After a fault the run is as before.
    pub fn cycle(&mut self) -> Result<(), DenseFault>
        requires { self.old.cycle < self.old.problem.nlim }
        ensures next { OnOk result (self.new ≡ record self.old { cycle = self.old.cycle + 1 }) }
        ensures running { OnOk result (IsRunning (run_of self.old.problem (self.old.cycle + 1))) }
        ensures fault { IfErr result (CannotGoOn self.old) }
        ensures unchanged { OnErr result (self.new ≡ self.old) }
    {
        let room = mem::replace(&mut self.room, Room::empty(self.alloc));
        let next = next_cycle(
            self.alloc,
            self.problem,
            &self.tree,
            &self.layout,
            &self.state,
            room,
            self.cycle + 1,
        )?;
        let Next {
            tree,
            state,
            flows,
            drops,
            room,
        } = next;
        go_over(&mut self.tree, tree);
        self.state = state;
        self.flows = flows;
        self.drops = drops;
        self.room = room;
        self.cycle += 1;
        Ok(())
    }

    /// How many cycles were run.
    pub fn cycles(&self) -> u32
        ensures value { result ≡ self.now.cycle }
        ensures within { result ≤ self.now.problem.nlim }
    {
        self.cycle
    }

    /// Whether all cycles of the problem were run.
    pub fn is_finished(&self) -> bool
        ensures finished { IsTrue result ↔ (self.now.cycle ≡ self.now.problem.nlim) }
        ensures within { self.now.cycle ≤ self.now.problem.nlim }
    {
        self.cycle == self.problem.nlim
    }

    /// How many leaves there are.
    pub fn leaves(&self) -> u32
        ensures { result ≡ leaves_after self.now.problem self.now.cycle }
    {
        self.tree.len()
    }

    /// What all totals of all fields add up to.
    pub fn total(&self) -> u64
        ensures value { result ≡ total_after self.now.problem self.now.cycle }
        ensures within { result ≤ 2 ^ 62 - 1 }
    {
        sum_of_totals(
            self.problem,
            &self.tree,
            &self.layout,
            self.state.held.lists.as_slice(),
        )
    }

    /// The text of the dump after the cycles that were run.
    pub fn dump(&self) -> Result<Vec<u8>, NoMemory>
        ensures { IfOk result (λ text. text.items ≡ dump_after self.now.problem self.now.cycle) }
    {
        dump_text(
            self.alloc,
            self.problem,
            &self.tree,
            &self.layout,
            self.state.held.lists.as_slice(),
            self.cycle,
        )
    }

    /// A walk over the text of that dump, so that it need not stand whole in memory.
    pub fn walk<'b>(&'b self) -> DumpWalk<'b>
        ensures { joined result ≡ dump_after self.now.problem self.now.cycle }
    {
        DumpWalk::start(
            self.problem,
            &self.tree,
            &self.layout,
            self.state.held.lists.as_slice(),
            self.cycle,
        )
    }

    /// The files of the run so far: each dump that was due, and last the history once all cycles were run.
    ///
    /// A run keeps no dumps, so the problem is run anew up to the same cycle: that takes the time of the cycles once
    /// more, and memory for a second run and for all the files.
    pub fn files(&self, prefix: &str) -> Result<Files, NoMemory>
        ensures { IfOk result (λ files. files ≡ map file_of (files_until self.now.problem prefix.now self.now.cycle)) }
    {
        files_until(self.alloc, self.problem, prefix, self.cycle)
    }

    /// Appends the lines of the last cycle in the history, of the opening before the first one.
    pub fn push_history(&self, into: &mut Vec<u8>) -> Result<(), NoMemory>
        ensures { OnOk result (into.new.items
            ≡ into.old.items ++ lines_of_cycle self.now.problem (kernel_of self.now.problem) self.now.cycle) }
    {
        let entries = entries_after(
            self.alloc,
            self.problem,
            &self.tree,
            &self.layout,
            &self.state,
            self.flows.as_slice(),
            self.drops.as_slice(),
        )?;
        push_history_lines(self.problem, self.cycle, entries.as_slice(), into)
    }
}
