//! The state of a mesh.

ghost use Rattle.std.specs.Prelude.{◌≡◌, ◌+◌, ◌-◌, ◌<◌, ◌≤◌, ◌^◌, ℕ, true, false, None, Some, IfNone, IfOk, IfSome, IsSome, OnOk, length, option_copied, replicate, slice_index, slice_set};
ghost use Rattle.std.specs.Arc.{arc_value};
ghost use Rattle.block_tree.specs.Blocks.{leaves};
ghost use Rattle.block_layout.specs.declared.layout.Layout.{Layout};
ghost use Rattle.block_layout.specs.Indices.{count_of};
ghost use Rattle.field_bufs.specs.declared.buf.FieldBuf.{FieldBuf};
ghost use Rattle.alloc_epochs.specs.Shelf.{place_on, takes};
ghost use Rattle.problem_set.specs.SettingsOf.{settings_of};
ghost use Rattle.cell_block.specs.State.{Fits, HasLayout, IsIn, IsNextField, IsNoneFrom, IsStored, buffer_at, count_on, entry_at, epoch_at, idle_at, is_allocated, is_lent, leaf_count, list_count, list_of, listed, place_of, spare_at, with_buffer, with_change, with_idle, with_stamps};
ghost use Rattle.cell_block.specs.Rules.{IsLayoutFor, IsWhole, interior_at, opening_stored};

use crate::interior::write_interior;
use crate::opening::{opening_store, zero_counters};
use crate::store::Store;
use block_layout::Layout;
use block_tree::Tree;
use field_bufs::FieldBuf;
use mesh_num::NoMemory;
use package_fields::Registry;
use problem_set::Problem;
use sparse_pool::{PackKind, Place, Places};
use std::alloc::Global;
use std::marker::Model;
use std::sync::Arc;

/// A mesh as it is stored: its tree, and for each field and block what is kept where the field is allocated.
///
/// The leaves are divided, by their numbers, into partitions of equal size, the last of which may be smaller. Memory
/// goes to allocated places and to leaves, not to each field of each leaf.
#[derive(Drop)]
pub struct MeshState {
    tree: Arc<Tree>,
    layout: Layout,
    store: Store,
    counters: Vec<u32>,
}

impl Model for MeshState {
    ghost use Rattle.std.specs.Arc.{arc_value};
    ghost use Rattle.cell_block.specs.State.{Stored};
    ghost use Rattle.cell_block.specs.Whole.{AreStored, stored};

    ghost Value = { Stored };

    ghost view = { λ s. stored (arc_value s.tree) s.layout s.store s.counters.items };

    ghost invariant = { λ s. AreStored (arc_value s.tree) s.layout s.store s.counters.items };
}

impl MeshState {
    /// The state of a tree in which the fields that no block may go without are zero, and no other is allocated.
    ///
    /// Stamps, idle counts, tag counters and epochs are 0.
    pub fn empty(alloc: Global, problem: &Problem, tree: Tree) -> Result<MeshState, NoMemory>
        ensures { IfOk result (λ s. (l : Layout) → IsLayoutFor (settings_of problem.now) l
            → s ≡ opening_stored (settings_of problem.now) l tree s.spares) }
    {
        let leaves = tree.len();
        let size = problem.pack_size.unwrap_or(leaves);
        let layout = Layout::of(problem);
        let store = opening_store(alloc, problem, &layout, size, leaves)?;
        let counters = zero_counters(alloc, leaves)?;
        let tree = Arc::new(alloc, tree)?;
        Ok(MeshState {
            tree,
            layout,
            store,
            counters,
        })
    }

    /// The tree.
    pub fn tree(&self) -> &Tree
        ensures tree { result.now ≡ self.now.tree }
        ensures kept { IsStored self.now }
    {
        let _ = self.store.lists();
        let _ = self.tree.len();
        &self.tree
    }

    /// The same tree once more, for a holder of its own; no block is copied.
    pub fn share_tree(&self) -> Result<Arc<Tree>, NoMemory>
        ensures { IfOk result (λ tree. arc_value tree ≡ self.now.tree) }
    {
        Ok(Arc::try_clone(&self.tree)?)
    }

    /// How the cells and faces of a block lie in the lists of a buffer.
    pub fn layout(&self) -> &Layout
        ensures { HasLayout self.now result.now }
    {
        &self.layout
    }

    /// How many fields there are.
    pub fn fields(&self) -> u32
        ensures { result ≡ self.now.fields }
    {
        self.store.fields()
    }

    /// How many partitions there are.
    pub fn partitions(&self) -> u32
        ensures { result ≡ list_count self.now }
    {
        self.store.lists()
    }

    /// The partition of a leaf.
    pub fn partition(&self, leaf: u32) -> u32
        requires { leaf < leaf_count self.now }
        ensures value { result ≡ list_of self.now leaf }
        ensures within { result < list_count self.now }
    {
        self.store.list_of(leaf)
    }

    /// Whether a field is allocated on a block.
    pub fn allocated(&self, at: Place) -> bool
        ensures { result ≡ is_allocated self.now at }
    {
        self.store.get(at).is_some()
    }

    /// Whether it is allocated there and its buffer is lent.
    pub fn lent(&self, at: Place) -> bool
        ensures { result ≡ is_lent self.now at }
    {
        match self.store.get(at) {
            Some(kept) => kept.buf.is_none(),
            None => false,
        }
    }

    /// The first field from one on that is allocated on a block, lent or not.
    pub fn next_field(&self, block: u32, from: u32) -> Option<u32>
        requires { block < leaf_count self.now }
        ensures found { IfSome result (IsNextField self.now block from) }
        ensures none { IfNone result (IsNoneFrom self.now block from) }
    {
        self.store.next_field(block, from)
    }

    /// On how many blocks a field is allocated. The count is kept, not taken.
    pub fn count(&self, field: u32) -> u64
        requires { field < self.now.fields }
        ensures { result ≡ count_on self.now field }
    {
        self.store.blocks_with(field)
    }

    /// Writes the totals of a block's own cells, without ghosts, x1 fastest: zeros where the field is not allocated.
    pub fn interior(&self, at: Place, into: &mut [u64])
        requires within { IsIn self.now at }
        requires home { is_lent self.now at ≡ false }
        requires fits { length into.old ≡ count_of self.now.cells }
        ensures { (l : Layout) → HasLayout self.now l → into.new ≡ interior_at l self.now at }
    {
        match self.buffer(at) {
            Some(buf) => write_interior(&self.layout, buf.cells.as_slice(), into),
            None => into.fill(0),
        }
    }

    /// Makes room for so many more places of a partition, so that as many calls of `add` need no memory.
    pub fn reserve(&mut self, list: u32, more: usize) -> Result<(), NoMemory>
        requires { list < list_count self.old }
        ensures rest { self.new ≡ record self.old { spares = self.new.spares } }
        ensures room { OnOk result (more ≤ spare_at self.new list) }
        ensures grown { (other : ℕ) → spare_at self.old other ≤ spare_at self.new other }
    {
        self.store.reserve(list, more)
    }

    /// Puts a buffer at its place, where the field was not allocated.
    pub fn add(&mut self, buf: FieldBuf)
        requires within { IsIn self.old (place_of buf) }
        requires absent { entry_at self.old (place_of buf) ≡ None }
        requires room { 1 ≤ spare_at self.old (list_of self.old buf.block) }
        requires epoch { epoch_at self.old (list_of self.old buf.block) < 2 ^ 64 - 1 }
        requires sizes { Fits self.old buf }
        ensures added { self.new ≡ record (with_change self.old (place_of buf)
            (Some (record { idle = 0; buf = Some buf }))) { spares = self.new.spares } }
        ensures spares { (list : ℕ) → spare_at self.old list ≤ spare_at self.new list + 1 }
    {
        let at = Place {
            block: buf.block,
            field: buf.field,
        };
        self.store.add(at, buf);
    }

    /// Lends a buffer: it is moved out until it is put back.
    pub fn take_out(&mut self, at: Place) -> FieldBuf
        requires home { IsSome (buffer_at self.old at) }
        ensures buffer { buffer_at self.old at ≡ Some result }
        ensures place { place_of result ≡ at }
        ensures sizes { Fits self.old result }
        ensures lent { self.new ≡ with_buffer self.old at None }
    {
        self.store.lend(at)
    }

    /// Ends the loan of the buffer of a place.
    pub fn put_back(&mut self, buf: FieldBuf)
        requires lent { is_lent self.old (place_of buf) ≡ true }
        requires sizes { Fits self.old buf }
        ensures { self.new ≡ with_buffer self.old (place_of buf) (Some buf) }
    {
        let at = Place {
            block: buf.block,
            field: buf.field,
        };
        self.store.put_back(at, buf);
    }

    /// Frees a place and answers its buffer.
    pub fn release(&mut self, at: Place) -> FieldBuf
        requires home { IsSome (buffer_at self.old at) }
        requires epoch { epoch_at self.old (list_of self.old at.block) < 2 ^ 64 - 1 }
        ensures buffer { buffer_at self.old at ≡ Some result }
        ensures place { place_of result ≡ at }
        ensures sizes { Fits self.old result }
        ensures freed { self.new ≡ record (with_change self.old at None) { spares = self.new.spares } }
        ensures spares { (list : ℕ) → spare_at self.old list ≤ spare_at self.new list }
    {
        self.store.release(at)
    }

    /// The buffer of a place, or None where it is not allocated or lent.
    pub fn buffer(&self, at: Place) -> Option<&FieldBuf>
        ensures buffer { option_copied result ≡ buffer_at self.now at }
        ensures kept { IsStored self.now }
    {
        let _ = self.store.lists();
        let _ = self.tree.len();
        match self.store.get(at) {
            Some(kept) => kept.buf.as_ref(),
            None => None,
        }
    }

    /// Raises by one the stamp of each buffer of a block that is not lent.
    pub fn raise_stamp(&mut self, block: u32)
        requires within { block < leaf_count self.old }
        requires stamps { (f : ℕ) (buf : FieldBuf) → buffer_at self.old (place_on block f) ≡ Some buf
            → buf.stamp < 2 ^ 32 - 1 }
        ensures { self.new ≡ with_stamps self.old block }
    {
        self.store.stamp(block);
    }

    /// At how many checks in a row an allocated field was idle on a block.
    pub fn idle(&self, at: Place) -> u32
        requires { is_allocated self.now at ≡ true }
        ensures { result ≡ idle_at self.now at }
    {
        match self.store.get(at) {
            Some(kept) => kept.idle,
            None => 0,
        }
    }

    /// Sets that count.
    pub fn set_idle(&mut self, at: Place, idle: u32)
        requires { is_allocated self.old at ≡ true }
        ensures { self.new ≡ with_idle self.old at idle }
    {
        self.store.set_idle(at, idle);
    }

    /// The tag counter of a leaf.
    pub fn counter(&self, leaf: u32) -> u32
        requires { leaf < leaf_count self.now }
        ensures { result ≡ slice_index self.now.counters leaf }
    {
        self.counters[leaf as usize]
    }

    /// Sets the tag counter of a leaf.
    pub fn set_counter(&mut self, leaf: u32, counter: u32)
        requires { leaf < leaf_count self.old }
        ensures { self.new ≡ record self.old { counters = slice_set self.old.counters leaf counter } }
    {
        self.counters[leaf as usize] = counter;
    }

    /// The allocated places of a partition whose fields tasks of a kind take, by block, then field.
    pub fn listed(&self, list: u32, kind: PackKind, fields: &Registry) -> Result<Places, NoMemory>
        requires within { list < list_count self.now }
        requires fields { length fields.now.fields ≡ self.now.fields }
        ensures { IfOk result (λ places. places ≡ listed self.now list (takes fields.now.fields kind)) }
    {
        self.store.listed(list, kind, fields)
    }

    /// How often a place of a partition came or went since the last restart.
    pub fn epoch(&self, list: u32) -> u64
        requires { list < list_count self.now }
        ensures { result ≡ epoch_at self.now list }
    {
        self.store.epoch(list)
    }

    /// Counts from 0 again in all partitions.
    pub fn restart_epochs(&mut self)
        ensures { self.new ≡ record self.old { epochs = replicate (list_count self.old) 0 } }
    {
        self.store.restart_epochs();
    }
}
