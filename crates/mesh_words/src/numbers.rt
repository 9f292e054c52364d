ghost use Rattle.std.specs.Prelude.{◌≡◌};
ghost use Rattle.mesh_num.specs.Decimal.{from_decimal};
ghost use Rattle.mesh_words.specs.Numbers.{is_number_within, is_workers, is_seed, is_prefix};

use mesh_num::from_decimal;

/// The number that a text writes in 1 to 10 decimal digits.
pub fn number_of(text: &str) -> Option<u64>
    ensures { result ≡ from_decimal 10 text.now }
{
    from_decimal(text, 10)
}

fn is_number_within(text: &str, least: u64, greatest: u64) -> bool
    ensures { result ≡ is_number_within least greatest text.now }
{
    match number_of(text) {
        Some(n) => least <= n && n <= greatest,
        None => false,
    }
}

/// Whether a text is a number of workers.
pub fn is_workers(text: &str) -> bool
    ensures { result ≡ is_workers text.now }
{
    is_number_within(text, 1, 64)
}

/// Whether a text is a seed.
pub fn is_seed(text: &str) -> bool
    ensures { result ≡ is_seed text.now }
{
    is_number_within(text, 0, 2_147_483_647)
}

/// Whether a text is a prefix of file names.
pub fn is_prefix(text: &str) -> bool
    ensures { result ≡ is_prefix text.now }
{
    0 < text.len() && text.len() < 201
}
