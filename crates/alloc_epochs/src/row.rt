//! A row has the keys of a block by field, in pages.

ghost use Rattle.std.specs.Prelude.{◌≡◌, ◌+◌, ◌<◌, ◌≤◌, ◌/◌, ◌%◌, [], ◌==◌, ◌≢◌, ℕ, Some, None, IsTrue, ◌↔◌, IfOk, length, replicate, slice_index_or, nat_lt, not};
ghost use Rattle.alloc_epochs.specs.Pages.{Changes, key_in, is_page};

use crate::page::{PAGE_SIZE, Page, Pool};
use std::alloc::{AllocError, Global};
use std::marker::Model;

/// The keys of a block by field.
#[derive(Debug, Drop)]
pub struct Row {
    pages: Vec<Page>,
}

impl Model for Row {
    ghost use Rattle.std.specs.Prelude.{ℕ, List, Option};

    ghost Value = { List (List (Option ℕ)) };

    ghost view = { λ row. row.pages.items };
}

impl Row {
    /// A row of so many pages with no key.
    pub fn new(alloc: Global, pages: usize) -> Result<Row, AllocError>
        ensures { IfOk result (λ row. row ≡ replicate pages []) }
    {
        let mut made = Vec::with_capacity(alloc, pages)?;
        for _ in 0..pages {
            made.push(Page::empty(alloc))?;
        }
        Ok(Row { pages: made })
    }

    /// The key of a field, or nothing.
    pub fn get(&self, field: usize) -> Option<usize>
        ensures { result ≡ key_in self.now field }
    {
        let page = field / PAGE_SIZE;
        if page < self.pages.len() {
            self.pages[page].get(field % PAGE_SIZE)
        } else {
            None
        }
    }

    /// Whether the page of a field has entries.
    pub fn has_page(&self, field: usize) -> bool
        requires { field / 32 < length self.now }
        ensures { result ≡ nat_lt 0 (length (slice_index_or self.now (field / 32) [])) }
    {
        !self.pages[field / PAGE_SIZE].is_empty()
    }

    /// Gives a field a key.
    pub fn set(&mut self, field: usize, key: usize, pool: &mut Pool)
        requires within { field / 32 < length self.old }
        requires room { 0 < pool.old }
        ensures changes { Changes self.old self.new field (Some key) }
        ensures spare { pool.old ≤ pool.new + 1 }
    {
        let page = &mut self.pages[field / PAGE_SIZE];
        fill_in(page, pool);
        page.set(field % PAGE_SIZE, Some(key));
    }

    /// Takes a field's key away.
    pub fn clear(&mut self, field: usize, pool: &mut Pool)
        requires within { field / 32 < length self.old }
        ensures changes { Changes self.old self.new field None }
        ensures spare { pool.old ≤ pool.new }
    {
        let page = &mut self.pages[field / PAGE_SIZE];
        clear_entry(page, field % PAGE_SIZE, pool);
    }
}

/// Gives a page entries where it has none.
fn fill_in(page: &mut Page, pool: &mut Pool)
    requires { 0 < pool.old }
    ensures entries { length page.new ≡ 32 }
    ensures same { (entry : ℕ) → slice_index_or page.new entry None ≡ slice_index_or page.old entry None }
    ensures spare { pool.old ≤ pool.new + 1 }
{
    if page.is_empty() {
        *page = pool.take();
    }
}

/// Takes the key of an entry away, and the entries of a page that has no key then.
fn clear_entry(page: &mut Page, entry: usize, pool: &mut Pool)
    requires { entry < 32 }
    ensures cleared { slice_index_or page.new entry None ≡ None }
    ensures same { (other : ℕ) → other ≢ entry
        → slice_index_or page.new other None ≡ slice_index_or page.old other None }
    ensures spare { pool.old ≤ pool.new }
{
    if page.is_empty() {
        return;
    }
    page.set(entry, None);
    if page.is_blank() {
        pool.put_back(page.take());
    }
}
