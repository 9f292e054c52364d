//! Words, numbers and lines.

ghost use Rattle.std.specs.Prelude.{◌≡◌, [], ◌∷◌, ◌++◌, OnOk, codes, slice_index};
ghost use Rattle.std.specs.Fmt.{decimal};
ghost use Rattle.mesh_rules.specs.Texts.{line, named, three};

use itoa::Buffer;
use mesh_num::NoMemory;

/// Appends bytes.
pub fn push_bytes(into: &mut Vec<u8>, bytes: &[u8]) -> Result<(), NoMemory>
    ensures { OnOk result (into.new.items ≡ into.old.items ++ bytes.now) }
{
    into.extend_from_slice(bytes)?;
    Ok(())
}

/// Appends one byte.
pub fn push_byte(into: &mut Vec<u8>, byte: u8) -> Result<(), NoMemory>
    ensures { OnOk result (into.new.items ≡ into.old.items ++ byte ∷ []) }
{
    into.push(byte)?;
    Ok(())
}

/// Appends a number in decimal digits.
pub(crate) fn push_number(into: &mut Vec<u8>, number: u64) -> Result<(), NoMemory>
    ensures { OnOk result (into.new.items ≡ into.old.items ++ decimal number) }
{
    let mut digits = Buffer::new();
    push_bytes(into, digits.format(number).as_bytes())
}

/// Appends a number of up to 128 bits in decimal digits.
pub(crate) fn push_amount(into: &mut Vec<u8>, amount: u128) -> Result<(), NoMemory>
    ensures { OnOk result (into.new.items ≡ into.old.items ++ decimal amount) }
{
    let mut digits = Buffer::new();
    push_bytes(into, digits.format(amount).as_bytes())
}

/// Appends a word and a number.
pub fn push_named(into: &mut Vec<u8>, word: &[u8], number: u64) -> Result<(), NoMemory>
    ensures { OnOk result (into.new.items ≡ into.old.items ++ named word.now number) }
{
    push_bytes(into, word)?;
    push_number(into, number)
}

/// Appends a word and a number of up to 128 bits.
pub(crate) fn push_named_amount(
    into: &mut Vec<u8>,
    word: &[u8],
    amount: u128,
) -> Result<(), NoMemory>
    ensures { OnOk result (into.new.items ≡ into.old.items ++ named word.now amount) }
{
    push_bytes(into, word)?;
    push_amount(into, amount)
}

/// Appends a space and a number.
pub fn push_next(into: &mut Vec<u8>, number: u64) -> Result<(), NoMemory>
    ensures { OnOk result (into.new.items ≡ into.old.items ++ 32 ∷ decimal number) }
{
    push_byte(into, b' ')?;
    push_number(into, number)
}

/// Appends a word and three numbers, one space between two.
pub fn push_three(into: &mut Vec<u8>, word: &[u8], numbers: &[u32; 3]) -> Result<(), NoMemory>
    ensures { OnOk result (into.new.items ≡ into.old.items
        ++ three word.now (slice_index numbers.now 0) (slice_index numbers.now 1) (slice_index numbers.now 2)) }
{
    push_named(into, word, u64::from(numbers[0]))?;
    push_next(into, u64::from(numbers[1]))?;
    push_next(into, u64::from(numbers[2]))
}

/// Appends a line.
pub fn push_line(into: &mut Vec<u8>, text: &[u8]) -> Result<(), NoMemory>
    ensures { OnOk result (into.new.items ≡ into.old.items ++ line text.now) }
{
    push_bytes(into, text)?;
    push_byte(into, b'\n')
}

/// Appends a line of a word and a number.
pub fn push_named_line(into: &mut Vec<u8>, word: &[u8], number: u64) -> Result<(), NoMemory>
    ensures { OnOk result (into.new.items ≡ into.old.items ++ line (named word.now number)) }
{
    push_named(into, word, number)?;
    push_byte(into, b'\n')
}

/// Appends the last line of a dump and of a history.
pub fn push_end(into: &mut Vec<u8>) -> Result<(), NoMemory>
    ensures { OnOk result (into.new.items ≡ into.old.items ++ line (codes "end")) }
{
    push_line(into, b"end")
}
