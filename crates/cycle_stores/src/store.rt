//! The store of a cycle.

ghost use Rattle.std.specs.Prelude.{◌≡◌, ◌+◌, ◌/◌, ◌<◌, ◌≤◌, ◌^◌, [], All, IfOk, OnErr, OnOk, Some, filter, length, map, not};
ghost use Rattle.block_layout.specs.declared.layout.Layout.{Layout};
ghost use Rattle.problem_set.specs.SettingsOf.{settings_of};
ghost use Rattle.mesh_rules.specs.Fields.{field_count};
ghost use Rattle.cell_block.specs.State.{HasLayout, IsIn, epoch_at, idle_at, is_allocated, leaf_count, list_count, place_of, spare_at};
ghost use Rattle.cell_block.specs.Rules.{IsWhole};
ghost use Rattle.cycle_stores.specs.Stores.{CanLend, HaveChanged, IsStore, is_kept, lent_in, taken_in};
ghost use Rattle.cycle_stores.specs.Gives.{CanGive, CanMake, IsChangedTo, changes_by, given_by, made_in, new_in};
ghost use Rattle.cycle_stores.specs.Openings.{IsOpened};
ghost use Rattle.cycle_stores.specs.Arrivals.{made_by_letter};

use crate::arriving::zeros_of;
use crate::giving::{free, give_back, make};
use crate::keeping::{keep, keep_no_more};
use crate::left::Left;
use crate::lending::lend_into;
use crate::opening::{open_state, shelf_of};
use alloc_epochs::Shelf;
use cell_block::MeshState;
use field_bufs::Bufs;
use ghost_buffers::Letter;
use item_lists::Items;
use mesh_num::NoMemory;
use problem_set::Problem;
use sparse_pool::{Place, Places};
use std::alloc::Global;

/// A mesh state during a cycle, and the places that are kept.
#[derive(Drop)]
pub struct CycleStore {
    /// What is allocated, with its buffers and idle counts, and the epochs of the partitions.
    pub state: MeshState,
    /// The places that are kept.
    pub kept: Shelf,
    /// How many leaves a partition has; the last one may have fewer.
    pub size: u32,
}

impl CycleStore {
    /// The store of a mesh state as a cycle begins: stamps and epochs are 0, nothing stands in ghosts and passes
    /// faces, and what is allocated is kept. It costs what the allocated places and the leaves cost.
    pub fn start(alloc: Global, size: u32, state: MeshState) -> Result<CycleStore, NoMemory>
        requires size { size ≡ state.size }
        requires whole { IsWhole state }
        ensures { IfOk result (IsOpened state) }
    {
        let mut state = state;
        open_state(alloc, &mut state)?;
        let kept = shelf_of(alloc, &state)?;
        Ok(CycleStore { state, kept, size })
    }

    /// The mesh state, once the cycle is done.
    pub fn finish(self) -> MeshState
        ensures { result ≡ self.state }
    {
        self.state
    }

    /// Lends the buffers of places, in their order. Nothing changes where there is no memory for the list of them.
    pub fn lend(&mut self, alloc: Global, places: &Places) -> Result<Bufs, NoMemory>
        requires { CanLend self.old.state.places places.now }
        ensures bufs { IfOk result (λ bufs. map Some bufs ≡ taken_in self.old.state.places places.now) }
        ensures lent { OnOk result (self.new ≡ record self.old {
          state = record self.old.state { places = lent_in self.old.state.places places.now };
        }) }
        ensures refused { OnErr result (self.new ≡ self.old) }
    {
        let mut bufs = Vec::with_capacity(alloc, places.len())?;
        lend_into(&mut self.state, places.as_slice(), &mut bufs);
        Ok(Bufs::from_vec(bufs))
    }

    /// At how many checks in a row each of some places was idle.
    pub fn counts_of(&self, alloc: Global, places: &Places) -> Result<Items<u32>, NoMemory>
        ensures { IfOk result (λ counts. counts ≡ map (idle_at self.now.state) places.now) }
    {
        let mut counts = Vec::with_capacity(alloc, places.len())?;
        for at in places.as_slice() {
            counts.push_reserved(self.idle(*at));
        }
        Ok(Items::from_vec(counts))
    }

    /// At how many checks in a row a field was idle on a block: 0 where it is not allocated.
    fn idle(&self, at: Place) -> u32
        ensures { result ≡ idle_at self.now.state at }
    {
        if self.state.allocated(at) {
            self.state.idle(at)
        } else {
            0
        }
    }

    /// Those of some places that are kept, in their order.
    pub fn kept_among(&self, alloc: Global, places: &Places) -> Result<Places, NoMemory>
        ensures { IfOk result (λ kept. kept ≡ filter (is_kept self.now.kept) places.now) }
    {
        let mut kept = Vec::new(alloc);
        for at in places.as_slice() {
            if self.kept.key(*at).is_some() {
                kept.push(*at)?;
            }
        }
        Ok(Places::from_vec(kept))
    }

    /// The places of some buffers, as far as nothing is allocated there, in the order of the buffers.
    pub fn absent_of(&self, alloc: Global, bufs: &Bufs) -> Result<Places, NoMemory>
        ensures { IfOk result (λ places. places
            ≡ filter (λ at. not (is_allocated self.now.state at)) (map place_of bufs.now)) }
    {
        let mut places = Vec::new(alloc);
        for buf in bufs.as_slice() {
            let at = Place {
                block: buf.block,
                field: buf.field,
            };
            if !self.state.allocated(at) {
                places.push(at)?;
            }
        }
        Ok(Places::from_vec(places))
    }

    /// Makes room for so many more places of a partition, and for so many more that are kept.
    pub fn reserve(&mut self, list: u32, places: usize, keeps: usize) -> Result<(), NoMemory>
        requires { list < list_count self.old.state }
        ensures rest { self.new ≡ record self.old {
          state = record self.old.state { spares = self.new.state.spares };
          kept = record self.old.kept { spare = self.new.kept.spare };
        } }
        ensures places { OnOk result (places ≤ spare_at self.new.state list) }
        ensures keeps { OnOk result (keeps ≤ self.new.kept.spare) }
    {
        self.state.reserve(list, places)?;
        self.kept.reserve(keeps)
    }

    /// Takes in what a task leaves, with the places that it frees and those that are kept from now on. What is freed is
    /// kept no more.
    pub fn give(&mut self, left: Left, freed: &Places, keeps: &Places)
        requires store { IsStore self.old }
        requires fits { CanGive self.old.state left freed.now }
        requires list { left.list < list_count self.old.state }
        requires keeps { All (IsIn self.old.state) keeps.now }
        requires room { length keeps.now ≤ self.old.kept.spare }
        ensures state { IsChangedTo left.list (changes_by self.old.state left freed.now) self.old.state self.new.state
            (given_by self.old.state left freed.now) }
        ensures kept { HaveChanged self.old.kept self.new.kept keeps.now freed.now }
        ensures store { IsStore self.new }
    {
        let list = left.list;
        let made = give_back(&mut self.state, self.size, left);
        make(&mut self.state, list, made);
        free(&mut self.state, list, freed.as_slice());
        keep(&mut self.kept, keeps.as_slice());
        keep_no_more(&mut self.kept, freed.as_slice());
    }

    /// The buffers that the coming of a letter makes: of zeros, with the stamp of its receiver's buffers; and room for
    /// them. The store shows no change. Where the letter makes none, no memory is taken.
    pub fn coming(
        &mut self,
        alloc: Global,
        problem: &Problem,
        letter: &Letter,
        stamp: u32,
    ) -> Result<Bufs, NoMemory>
        requires block { letter.now.to < leaf_count self.old.state }
        requires fields { self.old.state.fields ≡ field_count (settings_of problem.now) }
        ensures rest { self.new ≡ record self.old {
          state = record self.old.state { spares = self.new.state.spares };
        } }
        ensures bufs { IfOk result (λ bufs. (l : Layout) → HasLayout self.old.state l
            → bufs ≡ made_by_letter (settings_of problem.now) l self.old.state letter.now stamp) }
        ensures room { IfOk result (λ bufs. length bufs ≤ spare_at self.new.state (letter.now.to / self.old.state.size)) }
        ensures refused { OnErr result ((l : Layout) → HasLayout self.old.state l
            → made_by_letter (settings_of problem.now) l self.old.state letter.now stamp ≡ [] → ⊥) }
    {
        if letter.flux {
            return Ok(Bufs::new(alloc));
        }
        let bufs = zeros_of(alloc, &self.state, problem, letter, stamp)?;
        if bufs.is_empty() {
            return Ok(bufs);
        }
        let list = self.state.partition(letter.to);
        self.state.reserve(list, bufs.len())?;
        Ok(bufs)
    }

    /// Puts the buffers in their places that the coming of a letter makes.
    pub fn arrive(&mut self, list: u32, bufs: Bufs)
        requires store { IsStore self.old }
        requires fits { CanMake self.old.state list self.old.state.places bufs }
        requires room { length bufs ≤ spare_at self.old.state list }
        requires epoch { epoch_at self.old.state list + length bufs < 2 ^ 64 }
        ensures state { IsChangedTo list (new_in self.old.state.places bufs) self.old.state self.new.state
            (made_in self.old.state.places bufs) }
        ensures kept { self.new.kept ≡ self.old.kept }
        ensures store { IsStore self.new }
    {
        make(&mut self.state, list, bufs);
    }
}
