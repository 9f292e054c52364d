//! A page has the keys of fields of a block that follow one another, and is empty where none of
//! them has a key.

ghost use Rattle.std.specs.Prelude.{◌≡◌, ◌+◌, ◌<◌, ◌≤◌, [], ◌==◌, ℕ, None, is_none, true, length, slice_index_or, slice_set, IfOk, OnOk, IsOk};
ghost use Rattle.std.specs.List.{list_all};
ghost use Rattle.alloc_epochs.specs.Pages.{blank, is_page};

use std::alloc::{AllocError, Global};
use std::marker::Model;
use std::mem;

/// How many fields a page has entries for.
pub const PAGE_SIZE: usize = 32;

/// The keys of fields that follow one another, or nothing.
#[derive(Debug, Drop)]
pub struct Page {
    keys: Vec<Option<usize>>,
}

impl Model for Page {
    ghost use Rattle.std.specs.Prelude.{◌≡◌, ℕ, true, List, Option};
    ghost use Rattle.alloc_epochs.specs.Pages.{is_page};

    ghost Value = { List (Option ℕ) };

    ghost view = { λ page. page.keys.items };

    ghost invariant = { λ page. is_page page.keys.items ≡ true };
}

impl Page {
    /// A page with no entry.
    pub fn empty(alloc: Global) -> Page
        ensures { result ≡ [] }
    {
        Page {
            keys: Vec::new(alloc),
        }
    }

    /// A page whose entries have no key.
    pub fn blank(alloc: Global) -> Result<Page, AllocError>
        ensures { IfOk result (λ page. page ≡ blank) }
    {
        let keys = vec![in alloc; None; PAGE_SIZE]?;
        Ok(Page { keys })
    }

    /// Whether the page has no entry.
    pub fn is_empty(&self) -> bool
        ensures answer { result ≡ (length self.now == 0) }
        ensures page { is_page self.now ≡ true }
    {
        self.keys.is_empty()
    }

    /// Whether no entry has a key.
    pub fn is_blank(&self) -> bool
        ensures { result ≡ list_all (λ key. is_none key) self.now }
    {
        self.keys.iter().all(|key| key.is_none())
    }

    /// The key of an entry, or nothing.
    pub fn get(&self, entry: usize) -> Option<usize>
        ensures { result ≡ slice_index_or self.now entry None }
    {
        if entry < self.keys.len() {
            self.keys[entry]
        } else {
            None
        }
    }

    /// Sets the key of an entry.
    pub fn set(&mut self, entry: usize, key: Option<usize>)
        requires { entry < length self.old }
        ensures { self.new ≡ slice_set self.old entry key }
    {
        self.keys[entry] = key;
    }

    /// Takes the page out, and leaves one with no entry.
    pub fn take(&mut self) -> Page
        ensures page { result ≡ self.old }
        ensures left { self.new ≡ [] }
    {
        let alloc = *self.keys.allocator();
        mem::replace(self, Page::empty(alloc))
    }
}

/// Pages that have entries without a key. Contracts see how many they are.
#[derive(Debug, Drop)]
pub struct Pool {
    alloc: Global,
    pages: Vec<Page>,
}

impl Model for Pool {
    ghost use Rattle.std.specs.Prelude.{◌≡◌, ℕ, All, length};
    ghost use Rattle.alloc_epochs.specs.Pages.{blank};

    ghost Value = { ℕ };

    ghost view = { λ pool. length pool.pages.items };

    ghost invariant = { λ pool. All (λ page. page ≡ blank) pool.pages.items };
}

impl Pool {
    /// A pool with no page.
    pub fn new(alloc: Global) -> Pool
        ensures { result ≡ 0 }
    {
        Pool {
            alloc,
            pages: Vec::new(alloc),
        }
    }

    /// Sees to it that the pool has at least so many pages.
    pub fn fill(&mut self, least: usize) -> Result<(), AllocError>
        ensures filled { OnOk result (least ≤ self.new) }
        ensures grown { self.old ≤ self.new }
        ensures succeeds { least ≤ self.old → IsOk result }
    {
        while self.pages.len() < least {
            let page = Page::blank(self.alloc)?;
            self.pages.push(page)?;
        }
        Ok(())
    }

    /// Takes a page out.
    pub fn take(&mut self) -> Page
        requires { 0 < self.old }
        ensures page { result ≡ blank }
        ensures left { self.new + 1 ≡ self.old }
    {
        self.pages.take_last()
    }

    /// Puts a page back, or gives it up where that would take memory.
    pub fn put_back(&mut self, page: Page)
        requires { page ≡ blank }
        ensures { self.old ≤ self.new }
    {
        if self.pages.len() < self.pages.capacity() {
            self.pages.push_reserved(page);
        }
    }
}
