ghost use Rattle.std.specs.Prelude.{◌≡◌, ◌≤◌};
ghost use Rattle.std.specs.Char.{is_ascii_digit};
ghost use Rattle.std.specs.List.{list_all};
ghost use Rattle.mesh_num.specs.Decimal.{is_decimal, from_decimal};

fn has_digits_only(text: &str) -> bool
    ensures { result ≡ list_all is_ascii_digit text.now }
{
    text.bytes().all(|b| b.is_ascii_digit())
}

fn is_decimal(text: &str, most: usize) -> bool
    ensures { result ≡ is_decimal most text.now }
{
    0 < text.len() && text.len() <= most && has_digits_only(text)
}

/// The number that a text writes in 1 to `most` decimal digits and nothing else; 19 of them always fit.
#[tactic(auto, using(crate::proofs::Digits::number_from_parse))]
pub fn from_decimal(text: &str, most: usize) -> Option<u64>
    requires fits { most ≤ 19 }
    ensures value { result ≡ from_decimal most text.now }
{
    if is_decimal(text, most) {
        text.parse::<u64>().ok()
    } else {
        None
    }
}
