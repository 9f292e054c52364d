//! Finding the allocated fields of a block, one after another.

ghost use Rattle.std.specs.Prelude.{◌≡◌, ◌<◌, ◌≤◌, ℕ, None, IfNone, IfSome, length};
ghost use Rattle.alloc_epochs.specs.Pages.{key_in, pages_for};
ghost use Rattle.alloc_epochs.specs.Rows.{IsNextIn};

use crate::listing::next_page;
use crate::row::Row;

/// An allocated field of a block, and the key under which its buffer is kept.
#[derive(Clone, Copy, Debug, PartialEq, Eq)]
pub struct KeyedField {
    pub field: u32,
    pub key: usize,
}

/// The first field from one on that has a key, of so many fields. A page that has no entry costs one step.
pub fn next_in_row(row: &Row, from: u32, count: u32) -> Option<KeyedField>
    requires few { count ≤ 256 }
    requires pages { length row.now ≡ pages_for count }
    ensures found { IfSome result (IsNextIn row.now from count) }
    ensures none { IfNone result ((f : ℕ) → from ≤ f → f < count → key_in row.now f ≡ None) }
{
    let mut field = from;
    while field < count {
        if row.has_page(field as usize) {
            if let Some(key) = row.get(field as usize) {
                return Some(KeyedField { field, key });
            }
            field += 1;
        } else {
            field = next_page(field).min(count);
        }
    }
    None
}
