//! The field blocks of each package, chained in deck order.

ghost use Rattle.std.specs.Prelude.{◌≡◌, ◌<◌, ◌≤◌, Some, IfOk, IfErr, OnOk, length, slice_get};
ghost use Rattle.std.specs.Map.{update};
ghost use Rattle.std.specs.Str.{bytes_eq};
ghost use Rattle.deck_values.specs.declared.fault.ProblemFault.TheVariants.{NoMemory as no_memory};
ghost use Rattle.input_file.specs.Texts.{Text};
ghost use Rattle.problem_set.specs.PackageBlocks.{AreChained, place_in};

use deck_entries::FieldBlock;
use deck_values::ProblemFault;
use package_fields::Name;
use std::alloc::Global;
use std::collections::BTreeMap;

/// For each field block, where the next one of the same package stands.
pub fn next_blocks(alloc: Global, blocks: &[FieldBlock]) -> Result<Vec<Option<usize>>, ProblemFault>
    ensures chained { IfOk result (λ next. AreChained blocks.now next.items) }
    ensures fault { IfErr result (λ fault. fault ≡ no_memory) }
{
    let mut next = vec![in alloc; None; blocks.len()]?;
    let mut nearest = BTreeMap::new(alloc);
    let mut i = blocks.len();
    while i > 0 {
        i -= 1;
        next[i] = put(&mut nearest, block_at(blocks, i).package_name.as_str(), i)?;
    }
    Ok(next)
}

/// Notes the place of a block of a package, and answers the place that was noted before.
#[tactic(auto, using(std::proofs::lemmas::Map::Text::btree_map_updates_str))]
fn put<'a>(
    places: &mut BTreeMap<&'a str, usize>,
    name: &'a str,
    i: usize,
) -> Result<Option<usize>, ProblemFault>
    ensures before { IfOk result (λ place. place ≡ place_in places.old name.now) }
    ensures after { OnOk result ((m : Text)
        → place_in places.new m ≡ update bytes_eq (place_in places.old) name.now (Some i) m) }
    ensures fault { IfErr result (λ fault. fault ≡ no_memory) }
{
    Ok(places.insert(name, i)?)
}

/// The field block at a place of the list.
pub fn block_at(blocks: &[FieldBlock], i: usize) -> &FieldBlock
    requires { i < length blocks.now }
    ensures { slice_get blocks.now i ≡ Some result.now }
{
    &blocks[i]
}
