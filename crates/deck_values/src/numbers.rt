ghost use Rattle.std.specs.Prelude.{◌≡◌, ◌<◌};
ghost use Rattle.std.specs.List.{list_all};
ghost use Rattle.deck_values.specs.Numbers.{number_of, signed_of, is_name_byte, is_name};

use mesh_num::from_decimal;

/// The number that a text writes in 1 to 19 decimal digits.
pub fn number_of(text: &str) -> Option<u64>
    ensures { result ≡ number_of text.now }
{
    from_decimal(text, 19)
}

/// The number that a text writes in 1 to 19 decimal digits, perhaps with one `-` before them.
#[tactic(auto, using(crate::proofs::Signs::signed_without_minus))]
pub fn signed_of(text: &str) -> Option<i128>
    ensures { result ≡ signed_of text.now }
{
    match text.strip_prefix('-') {
        Some(digits) => match number_of(digits) {
            Some(n) => Some(-i128::from(n)),
            None => None,
        },
        None => match number_of(text) {
            Some(n) => Some(i128::from(n)),
            None => None,
        },
    }
}

/// Whether each byte may stand in a name.
fn has_name_bytes_only(text: &str) -> bool
    ensures { result ≡ list_all is_name_byte text.now }
{
    text.bytes().all(|b| b.is_ascii_alphanumeric() || b == b'_' || b == b'.' || b == b'-')
}

/// Whether a text is a name: 1 to 32 letters, digits, `_`, `.` and `-`.
pub fn is_name(text: &str) -> bool
    ensures { result ≡ is_name text.now }
{
    0 < text.len() && text.len() < 33 && has_name_bytes_only(text)
}
