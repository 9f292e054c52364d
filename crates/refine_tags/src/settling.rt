//! Tags and counts of leaves.

ghost use Rattle.std.specs.Prelude.{◌≡◌, ◌+◌, ◌≤◌, cond, min, nat_le};
ghost use Rattle.block_tree.specs.declared.tags.Tag.TheVariants.{Merge, Same};
ghost use Rattle.mesh_rules.specs.Tags.{counted as counted_of, tag_of};

use block_tree::Tag;
use mesh_rules::Wish;

/// What a leaf's wish comes to.
#[derive(Clone, Copy, Debug, PartialEq, Eq)]
pub struct Settled {
    pub tag: Tag,
    /// How often in a row the leaf has wished to derefine, up to the number that is asked for.
    pub count: u32,
}

/// How often in a row a leaf has wished to derefine, up to the number that is asked for.
fn counted(wish: Wish, count: u32, limit: u32) -> u32
    requires { count ≤ limit }
    ensures { result ≡ counted_of limit wish count }
{
    match wish {
        Wish::Refine => 0,
        Wish::Same => 0,
        Wish::Derefine => next_count(count, limit),
    }
}

/// The count after one more wish to derefine.
fn next_count(count: u32, limit: u32) -> u32
    requires { count ≤ limit }
    ensures { result ≡ min limit (count + 1) }
{
    if count < limit {
        return count + 1;
    }
    limit
}

/// The tag of a leaf that is not to be refined.
fn waiting(count: u32, limit: u32) -> Tag
    ensures { result ≡ cond (nat_le limit count) Merge Same }
{
    if count >= limit {
        return Tag::Merge;
    }
    Tag::Same
}

/// The tag of a leaf with this wish and count.
fn tag_with(wish: Wish, count: u32, limit: u32) -> Tag
    ensures { result ≡ tag_of limit wish count }
{
    match wish {
        Wish::Refine => Tag::Refine,
        Wish::Same => waiting(count, limit),
        Wish::Derefine => waiting(count, limit),
    }
}

/// The tag and the new count of a leaf by its wish and its count so far; `limit` is the number of wishes in a row to
/// derefine that are asked for.
pub fn settle(wish: Wish, count: u32, limit: u32) -> Settled
    requires least { 1 ≤ limit }
    requires most { count ≤ limit }
    ensures tag { result.tag ≡ tag_of limit wish (counted_of limit wish count) }
    ensures count { result.count ≡ counted_of limit wish count }
    ensures bound { result.count ≤ limit }
{
    let count = counted(wish, count, limit);
    let tag = tag_with(wish, count, limit);
    Settled { tag, count }
}
