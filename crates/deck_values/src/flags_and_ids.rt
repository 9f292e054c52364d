//! The lists that keys of a field block are set to: flags and ids.

ghost use Rattle.std.specs.Prelude.{◌≡◌, ◌<◌, [], IfOk, Some, length, map, option_map, slice_get};
ghost use Rattle.deck_values.specs.FlagsAndIds.{flag_named, items_of, each_some, flag_of, flags_of, id_of, rising_after, ids_of};

use crate::numbers::number_of;
use package_fields::{Flag, Flags, Items};
use std::alloc::{AllocError, Global};
use std::collections::BTreeSet;

/// The greatest number of a field in its pool.
const GREATEST_ID: u64 = 65_535;

/// The texts between commas.
fn items_of(alloc: Global, text: &str) -> Result<Vec<&str>, AllocError>
    ensures { IfOk result (λ v. map (λ x. x.now) v.items ≡ items_of text.now) }
{
    text.split(',').collect(alloc)
}

/// The text at a place of a list.
fn item_at<'a>(items: &[&'a str], i: usize) -> &'a str
    requires { i < length items.now }
    ensures { slice_get (map (λ x. x.now) items.now) i ≡ Some result.now }
{
    items[i]
}

/// The flag with this name.
fn flag_named(name: &str) -> Option<Flag>
    ensures { result ≡ flag_named name.now }
{
    match name {
        "Cell" => Some(Flag::Cell),
        "Independent" => Some(Flag::Independent),
        "Derived" => Some(Flag::Derived),
        "OneCopy" => Some(Flag::OneCopy),
        "FillGhost" => Some(Flag::FillGhost),
        "WithFluxes" => Some(Flag::WithFluxes),
        "Sparse" => Some(Flag::Sparse),
        _ => None,
    }
}

/// The flag that an item names, with spaces around it dropped.
fn flag_of(item: &str) -> Option<Flag>
    ensures { result ≡ flag_of item.now }
{
    flag_named(item.trim_matches(' '))
}

/// The flags between commas, or None where an item names no flag.
#[tactic(auto, unfolding(crate::specs::FlagsAndIds::flags_of))]
pub fn flags_of(alloc: Global, text: &str) -> Result<Option<Flags>, AllocError>
    ensures { IfOk result (λ flags. flags ≡ flags_of text.now) }
{
    let items = items_of(alloc, text)?;
    flags_named(alloc, items.as_slice())
}

#[tactic(auto, using(crate::proofs::EachSome::each_some_laws))]
fn flags_named(alloc: Global, items: &[&str]) -> Result<Option<Flags>, AllocError>
    ensures { IfOk result (λ flags. flags ≡ each_some flag_of (map (λ x. x.now) items.now)) }
{
    let mut flags = Items::new(alloc);
    for i in 0..items.len() {
        match flag_of(item_at(items, i)) {
            Some(flag) => flags.push(flag)?,
            None => return Ok(None),
        }
    }
    Ok(Some(flags))
}

/// The number of a field in its pool.
fn id_of(item: &str) -> Option<u32>
    ensures { result ≡ id_of item.now }
{
    match number_of(item) {
        Some(n) if n <= GREATEST_ID => Some(n as u32),
        _ => None,
    }
}

/// Different ids between commas by rising number, or None where the text is not of that form.
#[tactic(auto, unfolding(crate::specs::FlagsAndIds::ids_of))]
pub fn ids_of(alloc: Global, text: &str) -> Result<Option<Items<u32>>, AllocError>
    ensures { IfOk result (λ ids. ids ≡ ids_of text.now) }
{
    let items = items_of(alloc, text)?;
    match ids_named(alloc, items.as_slice())? {
        Some(ids) => rising(alloc, ids.as_slice()),
        None => Ok(None),
    }
}

#[tactic(auto, using(crate::proofs::EachSome::each_some_laws))]
fn ids_named(alloc: Global, items: &[&str]) -> Result<Option<Vec<u32>>, AllocError>
    ensures { IfOk result (λ ids. option_map (λ v. v.items) ids ≡ each_some id_of (map (λ x. x.now) items.now)) }
{
    let mut ids = Vec::new(alloc);
    for i in 0..items.len() {
        match id_of(item_at(items, i)) {
            Some(id) => ids.push(id)?,
            None => return Ok(None),
        }
    }
    Ok(Some(ids))
}

/// The ids by rising number, or None where one is there twice.
fn rising(alloc: Global, ids: &[u32]) -> Result<Option<Items<u32>>, AllocError>
    ensures { IfOk result (λ risen. risen ≡ rising_after [] ids.now) }
{
    let mut risen = BTreeSet::new(alloc);
    for id in ids {
        if !risen.insert(*id)? {
            return Ok(None);
        }
    }
    let ids: Vec<u32> = risen.into_iter().collect(alloc)?;
    Ok(Some(Items::from_vec(ids)))
}
