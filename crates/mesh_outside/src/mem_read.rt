ghost use Rattle.std.specs.Prelude.{◌≡◌, ◌≤◌, None, length, IfNone, IfSome, IsSome};
ghost use Rattle.std.specs.Option.{option_copied, ForSome};
ghost use Rattle.mesh_outside.specs.Depot.{IsPiece};
ghost use Rattle.mesh_outside.specs.Files.{input_of};
ghost use Rattle.mesh_outside.specs.MemDepot.{piece_of};

use crate::Files;

// The bytes under a name.
fn find<'a>(inputs: &'a Files, name: &str) -> Option<&'a [u8]>
    ensures { option_copied result ≡ input_of inputs.now name.now }
{
    for file in inputs.as_slice() {
        if file.name.as_str() == name {
            return Some(file.bytes.as_bytes());
        }
    }
    None
}

/// Reads at most `most` bytes of an input from a place on into the start of `into`, and answers how
/// many; None exactly where no input has the name.
pub(crate) fn read_from(
    inputs: &Files,
    name: &str,
    from: u64,
    into: &mut [u8],
    most: usize,
) -> Option<usize>
    requires { 1 ≤ most }
    ensures absent { IfNone result (input_of inputs.now name.now ≡ None) }
    ensures there { IfSome result (λ count. IsSome (input_of inputs.now name.now)) }
    ensures piece { IfSome result (λ count. ForSome (input_of inputs.now name.now)
        (λ bytes. IsPiece bytes from into.old into.new count)) }
    ensures amount { IfSome result (λ count. ForSome (input_of inputs.now name.now) (λ bytes. count
        ≡ piece_of most bytes from (length into.old))) }
    ensures within { IfSome result (λ count. count ≤ length into.old) }
{
    let bytes = find(inputs, name)?;
    if bytes.len() as u64 <= from {
        return Some(0);
    }
    let rest = &bytes[from as usize..];
    let count = rest.len().min(into.len()).min(most);
    into[..count].copy_from_slice(&rest[..count]);
    Some(count)
}
