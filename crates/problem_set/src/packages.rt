//! The packages of a deck, and the registry of their fields.

ghost use Rattle.std.specs.Prelude.{ℕ, Option, ◌≡◌, ◌<◌, ◌-◌, ◌++◌, [], ◌∷◌, if◌then◌else◌, false, nat_lt, map, take, length, slice_get, All, None, Some, Ok, IfOk, IfErr, OnOk};
ghost use Rattle.std.specs.List.{flat_map};
ghost use Rattle.deck_values.specs.declared.fault.ProblemFault.TheVariants.{NoMemory as no_memory};
ghost use Rattle.deck_values.specs.Reading.{Answers, Gives};
ghost use Rattle.deck_entries.specs.FieldBlocks.{pool_field, dense_field};
ghost use Rattle.problem_set.specs.Kept.{kept_fields, kept_flags};
ghost use Rattle.package_fields.specs.Fields.{is_among};
ghost use Rattle.problem_set.specs.PackageBlocks.{most_gathered, AreChained, IsFirstFrom};
ghost use Rattle.problem_set.specs.Packages.{blocks_of, package_of, moves_of, package_moves, with_added, with_package_once, moves_once, registered, fields};
ghost use Rattle.deck_entries.specs.SoundEntries.{IsMoves};

use crate::package_blocks::{block_at, next_blocks};
use deck_entries::{FieldBlock, FieldForm, Moves};
use deck_values::{ProblemFault, names_of, read_blocks};
use input_file::Deck;
use mesh_settings::MOST_FIELDS;
use package_fields::{
    Field, FieldFault, Fields, Flag, Flags, Items, Name, Package, Registry, has_flag, is_permitted,
};
use sparse_pool::label_of;
use std::alloc::Global;

/// The registry of all fields, and how each field moves, by its number.
#[derive(Drop)]
pub struct FieldTable {
    pub fields: Registry,
    pub moves: Items<Moves>,
}

/// How many fields of a package are gathered at most: one more than a registry may have.
const MOST_GATHERED: usize = MOST_FIELDS + 1;

/// Fields and how each of them moves.
#[derive(Drop)]
struct FieldList {
    fields: Fields,
    moves: Items<Moves>,
}

/// Adds the fields of a block, as many as there is room for.
fn push_block(alloc: Global, list: &mut FieldList, block: &FieldBlock) -> Result<(), ProblemFault>
    requires room { length list.old.fields < most_gathered }
    ensures fields { OnOk result (list.new.fields
        ≡ list.old.fields ++ take (most_gathered - length list.old.fields) (kept_fields block.now)) }
    ensures moves { OnOk result (list.new.moves
        ≡ list.old.moves ++ take (most_gathered - length list.old.fields) (moves_of block.now)) }
    ensures fault { IfErr result (λ fault. fault ≡ no_memory) }
{
    let flags = kept_flags(alloc, &block.flags)?;
    if has_flag(block.flags.as_slice(), Flag::Sparse) {
        push_pool(alloc, list, block, &flags)
    } else {
        let field = dense_field(alloc, &block.name, &flags)?;
        push_field(list, field, block.moves)
    }
}

/// The flags that the fields of a block are added with. Flags that are not permitted together are
/// refused whatever they are, so that they are not kept: a list of them may be as long as the deck,
/// and a block may have as many fields.
fn kept_flags(alloc: Global, flags: &Flags) -> Result<Flags, ProblemFault>
    ensures value { IfOk result (λ kept. kept ≡ kept_flags flags.now) }
    ensures fault { IfErr result (λ fault. fault ≡ no_memory) }
{
    if is_permitted(flags.as_slice()) {
        Ok(Items::from_slice(alloc, flags.as_slice())?)
    } else {
        Ok(Items::new(alloc))
    }
}

/// Adds the fields of a pool with these flags, as many as there is room for.
fn push_pool(
    alloc: Global,
    list: &mut FieldList,
    block: &FieldBlock,
    flags: &Flags,
) -> Result<(), ProblemFault>
    requires room { length list.old.fields < most_gathered }
    ensures fields { OnOk result (list.new.fields
        ≡ list.old.fields ++ map (pool_field block.now.name flags.now)
        (take (most_gathered - length list.old.fields) block.now.ids)) }
    ensures moves { OnOk result (list.new.moves
        ≡ list.old.moves ++ map (λ id. block.now.moves) (take (most_gathered - length list.old.fields) block.now.ids)) }
    ensures fault { IfErr result (λ fault. fault ≡ no_memory) }
{
    let ids = first_ids(block.ids.as_slice(), MOST_GATHERED - list.fields.len());
    for id in ids {
        let field = pool_field(alloc, &block.name, flags, *id)?;
        push_field(list, field, block.moves)?;
    }
    Ok(())
}

/// The first ids of a pool, of which there may be fewer.
fn first_ids(ids: &[u32], most: usize) -> &[u32]
    ensures { result.now ≡ take most ids.now }
{
    if most < ids.len() { &ids[..most] } else { ids }
}

/// Adds a field.
fn push_field(list: &mut FieldList, field: Field, moves: Moves) -> Result<(), ProblemFault>
    ensures fields { OnOk result (list.new.fields ≡ list.old.fields ++ field ∷ []) }
    ensures moves { OnOk result (list.new.moves ≡ list.old.moves ++ moves ∷ []) }
    ensures fault { IfErr result (λ fault. fault ≡ no_memory) }
{
    list.fields.push(field)?;
    list.moves.push(moves)?;
    Ok(())
}

/// The field of a pool with an id.
fn pool_field(alloc: Global, name: &Name, flags: &Flags, id: u32) -> Result<Field, ProblemFault>
    ensures value { IfOk result (λ field. field ≡ pool_field name.now flags.now id) }
    ensures fault { IfErr result (λ fault. fault ≡ no_memory) }
{
    let label = match label_of(alloc, name.as_str(), id) {
        Ok(label) => Name::of(label),
        Err(_) => return Err(ProblemFault::NoMemory),
    };
    let base = Name::copy_of(alloc, name.as_str())?;
    let flags = Items::from_slice(alloc, flags.as_slice())?;
    Ok(Field {
        label,
        base,
        id: Some(id),
        flags,
    })
}

/// The field that is in no pool.
fn dense_field(alloc: Global, name: &Name, flags: &Flags) -> Result<Field, ProblemFault>
    ensures value { IfOk result (λ field. field ≡ dense_field name.now flags.now) }
    ensures fault { IfErr result (λ fault. fault ≡ no_memory) }
{
    let label = Name::copy_of(alloc, name.as_str())?;
    let base = Name::copy_of(alloc, name.as_str())?;
    let flags = Items::from_slice(alloc, flags.as_slice())?;
    Ok(Field {
        label,
        base,
        id: None,
        flags,
    })
}

/// The place of the next block of a package, where there is room for its fields.
fn next_place(list: &FieldList, next: &[Option<usize>], i: usize) -> Option<usize>
    requires { i < length next.now }
    ensures { (n : Option ℕ) → slice_get next.now i ≡ Some n
        → result ≡ (if nat_lt (length list.now.fields) most_gathered then n else None) }
{
    if list.fields.len() < MOST_GATHERED {
        next[i]
    } else {
        None
    }
}

/// The package whose first block stands at a place, and how its fields move. It takes fields until
/// there is one more than a registry may have.
fn gather(
    alloc: Global,
    blocks: &[FieldBlock],
    next: &[Option<usize>],
    first: usize,
    package_name: &Name,
) -> Result<(Package, Items<Moves>), ProblemFault>
    requires chained { AreChained blocks.now next.now }
    requires first { IsFirstFrom blocks.now 0 package_name.now (Some first) }
    ensures name { IfOk result (λ m. m.0.name ≡ package_name.now) }
    ensures fields { IfOk result (λ m. m.0.fields
        ≡ take most_gathered (flat_map kept_fields (blocks_of blocks.now package_name.now))) }
    ensures moves { IfOk result (λ m. m.1 ≡ take most_gathered (package_moves blocks.now package_name.now)) }
    ensures fault { IfErr result (λ fault. fault ≡ no_memory) }
{
    let mut list = FieldList {
        fields: Items::new(alloc),
        moves: Items::new(alloc),
    };
    let mut place = Some(first);
    while let Some(i) = place {
        push_block(alloc, &mut list, block_at(blocks, i))?;
        place = next_place(&list, next, i);
    }
    let FieldList { fields, moves } = list;
    let name = Name::copy_of(alloc, package_name.as_str())?;
    Ok((Package { name, fields }, moves))
}

/// Adds the package whose first block stands at a place.
fn register_package(
    alloc: Global,
    registry: &mut Registry,
    moves: &mut Items<Moves>,
    blocks: &[FieldBlock],
    next: &[Option<usize>],
    first: usize,
    package_name: &Name,
) -> Result<(), ProblemFault>
    requires chained { AreChained blocks.now next.now }
    requires first { IsFirstFrom blocks.now 0 package_name.now (Some first) }
    ensures registry { Answers (λ _. registry.new) result
        (with_added registry.old (package_of blocks.now package_name.now)) }
    ensures moves { OnOk result (moves.new ≡ moves.old ++ package_moves blocks.now package_name.now) }
{
    let (package, more) = gather(alloc, blocks, next, first, package_name)?;
    add_package(registry, package)?;
    moves.append(more)?;
    Ok(())
}

/// Adds a package; a fault of a field is one of the problem.
fn add_package(registry: &mut Registry, declared: Package) -> Result<(), ProblemFault>
    ensures { Answers (λ _. registry.new) result (with_added registry.old declared) }
{
    match registry.add(declared) {
        Ok(()) => Ok(()),
        Err(FieldFault::NoMemory) => Err(ProblemFault::NoMemory),
        Err(fault) => Err(ProblemFault::Fields { fault }),
    }
}

/// Adds the package of a block, unless it is there: then the block is its first.
fn register_once(
    alloc: Global,
    registry: &mut Registry,
    moves: &mut Items<Moves>,
    blocks: &[FieldBlock],
    next: &[Option<usize>],
    i: usize,
    package_name: &Name,
) -> Result<(), ProblemFault>
    requires chained { AreChained blocks.now next.now }
    requires first { is_among registry.old.packages package_name.now ≡ false
        → IsFirstFrom blocks.now 0 package_name.now (Some i) }
    ensures registry { Answers (λ _. registry.new) result (with_package_once blocks.now registry.old package_name.now) }
    ensures moves { OnOk result (moves.new ≡ moves.old ++ moves_once blocks.now registry.old package_name.now) }
{
    if registry.has_package(package_name.as_str()) {
        Ok(())
    } else {
        register_package(alloc, registry, moves, blocks, next, i, package_name)
    }
}

/// Adds the packages of all field blocks, in the order in which the blocks first name them.
fn register_all(alloc: Global, blocks: &[FieldBlock]) -> Result<FieldTable, ProblemFault>
    requires { All (λ b. IsMoves b.moves) blocks.now }
    ensures value { Gives result (registered blocks.now) }
    ensures as_many { IfOk result (λ f. length f.moves ≡ length f.fields.fields) }
    ensures sound { IfOk result (λ f. All IsMoves f.moves) }
{
    let next = next_blocks(alloc, blocks)?;
    register_chained(alloc, blocks, next.as_slice())
}

/// The same, where it is known which blocks follow one another in a package.
fn register_chained(
    alloc: Global,
    blocks: &[FieldBlock],
    next: &[Option<usize>],
) -> Result<FieldTable, ProblemFault>
    requires moves { All (λ b. IsMoves b.moves) blocks.now }
    requires chained { AreChained blocks.now next.now }
    ensures value { Gives result (registered blocks.now) }
    ensures as_many { IfOk result (λ f. length f.moves ≡ length f.fields.fields) }
    ensures sound { IfOk result (λ f. All IsMoves f.moves) }
{
    let mut fields = Registry::new(alloc);
    let mut moves = Items::new(alloc);
    for i in 0..blocks.len() {
        let name = &block_at(blocks, i).package_name;
        register_once(alloc, &mut fields, &mut moves, blocks, next, i, name)?;
    }
    Ok(FieldTable { fields, moves })
}

/// Reads the field blocks of a deck and adds their packages.
#[tactic(auto, unfolding(crate::specs::Packages::fields))]
pub fn read_fields(alloc: Global, deck: &Deck) -> Result<FieldTable, ProblemFault>
    ensures value { Gives result (fields deck.now) }
    ensures as_many { IfOk result (λ f. length f.moves ≡ length f.fields.fields) }
    ensures sound { IfOk result (λ f. All IsMoves f.moves) }
{
    let names = names_of(alloc, deck, "field")?;
    let blocks = read_blocks(alloc, deck, names.as_slice(), &FieldForm)?;
    register_all(alloc, blocks.as_slice())
}
