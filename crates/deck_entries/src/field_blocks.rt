//! The blocks that declare fields.

ghost use Rattle.std.specs.Prelude.{◌≡◌, ◌≤◌, IfOk, All, Ok, length, unsigned_abs};
ghost use Rattle.std.specs.Option.{option_copied};
ghost use Rattle.deck_values.specs.Reading.{Gives};
ghost use Rattle.deck_entries.specs.FieldBlocks.{behind_field, field_name, default_flags, package_name, flags, ids, flags_and_ids, speed, spread, order, entry_amount};
ghost use Rattle.deck_entries.specs.FieldBlocks.{speeds, entry_pair, entry_amounts, moves, field_block};
ghost use Rattle.deck_entries.specs.SoundEntries.{IsMoves, IsSlow};
ghost use Rattle.mesh_settings.specs.Limits.{greatest_total, greatest_factor};

use crate::entries::Moves;
use deck_values::{BlockReader, ProblemFault, flags_of, ids_of, is_name};
use mesh_settings::{GREATEST_FACTOR, GREATEST_TOTAL};
use package_fields::{FieldFault, Flag, Flags, Items, Name, has_flag};
use std::alloc::Global;

/// What a block says that declares a field, or the fields of a pool.
#[derive(Drop)]
pub struct FieldBlock {
    pub name: Name,
    /// The name of the package that the fields are added with.
    pub package_name: Name,
    pub flags: Flags,
    /// The ids of a pool by rising number, else empty.
    pub ids: Items<u32>,
    pub moves: Moves,
}

/// Reads a block that declares a field, or the fields of a pool.
#[tactic(auto, unfolding(crate::specs::FieldBlocks::field_block))]
pub fn read_field_block(block: &BlockReader) -> Result<FieldBlock, ProblemFault>
    ensures value { Gives result (field_block block.now.deck.now block.now.block.now) }
    ensures sound { IfOk result (λ b. IsMoves b.moves) }
{
    let name = read_field_name(block)?;
    let package_name = read_package_name(block)?;
    let (flags, ids) = read_flags_and_ids(block, &name)?;
    let moves = read_moves(block)?;
    Ok(FieldBlock {
        name,
        package_name,
        flags,
        ids,
        moves,
    })
}

/// The name that stands behind `field/`.
#[tactic(auto, unfolding(crate::specs::FieldBlocks::field_name))]
fn read_field_name(block: &BlockReader) -> Result<Name, ProblemFault>
    ensures { Gives result (field_name block.now.block.now) }
{
    match behind_field(block.block) {
        Some(name) => {
            if is_name(name) {
                Ok(Name::copy_of(block.alloc, name)?)
            } else {
                Err(block.bad_value("name"))
            }
        }
        None => Err(block.bad_value("name")),
    }
}

/// What stands behind `field/`.
#[tactic(auto, using(crate::proofs::Prefix::strips_text))]
fn behind_field(block: &str) -> Option<&str>
    ensures { option_copied result ≡ behind_field block.now }
{
    block.strip_prefix("field/")
}

#[tactic(auto, unfolding(crate::specs::FieldBlocks::package_name))]
fn read_package_name(block: &BlockReader) -> Result<Name, ProblemFault>
    ensures { Gives result (package_name block.now.deck.now block.now.block.now) }
{
    match block.text("package") {
        Some(name) => {
            if is_name(name) {
                Ok(Name::copy_of(block.alloc, name)?)
            } else {
                Err(block.bad_value("package"))
            }
        }
        None => Ok(Name::copy_of(block.alloc, "transport")?),
    }
}

#[tactic(auto, unfolding(crate::specs::FieldBlocks::flags_and_ids))]
fn read_flags_and_ids(block: &BlockReader, name: &Name) -> Result<(Flags, Items<u32>), ProblemFault>
    ensures { Gives result (flags_and_ids block.now.deck.now block.now.block.now name.now) }
{
    let flags = read_flags(block, name)?;
    let ids = read_ids(block, &flags)?;
    Ok((flags, ids))
}

#[tactic(auto, unfolding(crate::specs::FieldBlocks::flags))]
fn read_flags(block: &BlockReader, name: &Name) -> Result<Flags, ProblemFault>
    ensures { Gives result (flags block.now.deck.now block.now.block.now name.now) }
{
    match block.text("flags") {
        Some(text) => match flags_of(block.alloc, text)? {
            Some(flags) => Ok(flags),
            None => {
                let name = Name::copy_of(block.alloc, name.as_str())?;
                Err(ProblemFault::Fields {
                    fault: FieldFault::BadFlags { name },
                })
            }
        },
        None => default_flags(block.alloc),
    }
}

/// The flags of a field where the key is absent.
fn default_flags(alloc: Global) -> Result<Flags, ProblemFault>
    ensures { Gives result (Ok default_flags) }
{
    let flags = vec![in alloc;
        Flag::Cell,
        Flag::Independent,
        Flag::FillGhost,
        Flag::WithFluxes,
    ]?;
    Ok(Items::from_vec(flags))
}

/// The ids of a pool; a field in no pool has none.
#[tactic(auto, unfolding(crate::specs::FieldBlocks::ids))]
fn read_ids(block: &BlockReader, flags: &Flags) -> Result<Items<u32>, ProblemFault>
    ensures { Gives result (ids block.now.deck.now block.now.block.now flags.now) }
{
    if !has_flag(flags.as_slice(), Flag::Sparse) {
        return match block.text("ids") {
            None => Ok(Items::new(block.alloc)),
            Some(_) => Err(block.bad_value("ids")),
        };
    }
    match block.text("ids") {
        None => Err(block.missing("ids")),
        Some(text) => match ids_of(block.alloc, text)? {
            Some(ids) => Ok(ids),
            None => Err(block.bad_value("ids")),
        },
    }
}

#[tactic(auto, unfolding(crate::specs::FieldBlocks::moves))]
fn read_moves(block: &BlockReader) -> Result<Moves, ProblemFault>
    ensures value { Gives result (moves block.now.deck.now block.now.block.now) }
    ensures sound { IfOk result IsMoves }
{
    let v = read_speeds(block)?;
    let k = read_spread(block)?;
    let order = read_order(block)?;
    let entry = read_entry_amounts(block)?;
    Ok(Moves { v, k, order, entry })
}

#[tactic(auto, unfolding(crate::specs::FieldBlocks::speeds))]
fn read_speeds(block: &BlockReader) -> Result<[i64; 3], ProblemFault>
    ensures value { Gives result (speeds block.now.deck.now block.now.block.now) }
    ensures slow { IfOk result (λ v. IsSlow v) }
{
    let v1 = read_speed(block, "v1")?;
    let v2 = read_speed(block, "v2")?;
    let v3 = read_speed(block, "v3")?;
    Ok([v1, v2, v3])
}

#[tactic(auto, unfolding(crate::specs::FieldBlocks::speed, deck_values::specs::BlockReader::signed))]
fn read_speed(block: &BlockReader, key: &str) -> Result<i64, ProblemFault>
    ensures value { Gives result (speed block.now.deck.now block.now.block.now key.now) }
    ensures slow { IfOk result (λ v. unsigned_abs v ≤ greatest_factor) }
{
    let v = block.signed_at(key, 0)?;
    if v.unsigned_abs() <= u128::from(GREATEST_FACTOR) {
        Ok(v as i64)
    } else {
        Err(block.limit(key, v))
    }
}

#[tactic(auto, unfolding(crate::specs::FieldBlocks::spread))]
fn read_spread(block: &BlockReader) -> Result<u64, ProblemFault>
    ensures value { Gives result (spread block.now.deck.now block.now.block.now) }
    ensures most { IfOk result (λ k. k ≤ greatest_factor) }
{
    block.number("k", 0, GREATEST_FACTOR, Some(0))
}

/// The order of the scheme that moves the field.
#[tactic(auto, unfolding(crate::specs::FieldBlocks::order))]
fn read_order(block: &BlockReader) -> Result<u32, ProblemFault>
    ensures value { Gives result (order block.now.deck.now block.now.block.now) }
    ensures least { IfOk result (λ n. 1 ≤ n) }
    ensures most { IfOk result (λ n. n ≤ 2) }
{
    let n = block.number("order", 1, 2, Some(1))?;
    Ok(n as u32)
}

#[tactic(auto, unfolding(crate::specs::FieldBlocks::entry_amounts))]
fn read_entry_amounts(block: &BlockReader) -> Result<[u64; 6], ProblemFault>
    ensures value { Gives result (entry_amounts block.now.deck.now block.now.block.now) }
    ensures most { IfOk result (λ entry. (length entry ≡ 6) × All (λ amount. amount ≤ greatest_total) entry) }
{
    let (low1, high1) = read_entry_pair(block, "ix1_in", "ox1_in")?;
    let (low2, high2) = read_entry_pair(block, "ix2_in", "ox2_in")?;
    let (low3, high3) = read_entry_pair(block, "ix3_in", "ox3_in")?;
    Ok([low1, high1, low2, high2, low3, high3])
}

/// The amounts outside of the low and the high face of an axis.
#[tactic(auto, unfolding(crate::specs::FieldBlocks::entry_pair))]
fn read_entry_pair(block: &BlockReader, low: &str, high: &str) -> Result<(u64, u64), ProblemFault>
    ensures value { Gives result (entry_pair block.now.deck.now block.now.block.now low.now high.now) }
    ensures low_most { IfOk result (λ pair. pair.0 ≤ greatest_total) }
    ensures high_most { IfOk result (λ pair. pair.1 ≤ greatest_total) }
{
    let l = read_entry_amount(block, low)?;
    let h = read_entry_amount(block, high)?;
    Ok((l, h))
}

/// The amount outside of a face.
#[tactic(auto, unfolding(crate::specs::FieldBlocks::entry_amount))]
fn read_entry_amount(block: &BlockReader, key: &str) -> Result<u64, ProblemFault>
    ensures value { Gives result (entry_amount block.now.deck.now block.now.block.now key.now) }
    ensures most { IfOk result (λ amount. amount ≤ greatest_total) }
{
    block.number(key, 0, GREATEST_TOTAL, Some(0))
}
