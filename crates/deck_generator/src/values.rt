//! What the keys of a generated deck are set to.

ghost use Rattle.std.specs.Prelude.{◌≡◌, ◌+◌, true, IfOk, IsTrue};
ghost use Rattle.std.specs.String.{string_bytes};
ghost use Rattle.input_file.specs.Texts.{is_value};
ghost use Rattle.deck_generator.specs.Values.{value_text, field_label, negative_text, numbers_below, is_formed};
ghost use Rattle.std.specs.Fmt.{decimal};

use std::alloc::{AllocError, Global};

/// What a key is set to.
#[derive(Clone, Copy)]
pub enum Value<'a> {
    /// A word as it is.
    Word(&'a str),
    /// A number.
    Number(u32),
    /// A number with a `-` before it.
    Negative(u32),
    /// The label of the field of the pool with a number.
    Label(u32),
    /// The numbers below a count, with commas between them.
    NumbersBelow(u32),
}

/// The text of a value.
pub fn text_of(alloc: Global, value: Value) -> Result<String, AllocError>
    ensures value { IfOk result (λ text. string_bytes text ≡ value_text value.entry) }
    ensures formed { IfOk result (λ text. is_formed value.entry ≡ true → IsTrue (is_value (string_bytes text))) }
{
    match value {
        Value::Word(word) => String::from_str(alloc, word),
        Value::Number(n) => number_text(alloc, n),
        Value::Negative(n) => negative_text(alloc, n),
        Value::Label(n) => label_text(alloc, n),
        Value::NumbersBelow(count) => numbers_below(alloc, count),
    }
}

fn number_text(alloc: Global, n: u32) -> Result<String, AllocError>
    ensures value { IfOk result (λ text. string_bytes text ≡ decimal n) }
    ensures formed { IfOk result (λ text. IsTrue (is_value (string_bytes text))) }
{
    format!(in alloc; "{n}")
}

fn negative_text(alloc: Global, n: u32) -> Result<String, AllocError>
    ensures value { IfOk result (λ text. string_bytes text ≡ negative_text n) }
    ensures formed { IfOk result (λ text. IsTrue (is_value (string_bytes text))) }
{
    format!(in alloc; "-{n}")
}

/// The label of the field of the pool with a number.
fn label_text(alloc: Global, n: u32) -> Result<String, AllocError>
    ensures value { IfOk result (λ text. string_bytes text ≡ field_label n) }
    ensures formed { IfOk result (λ text. IsTrue (is_value (string_bytes text))) }
{
    format!(in alloc; "s_{n}")
}

/// The numbers below a count, with commas between them.
fn numbers_below(alloc: Global, count: u32) -> Result<String, AllocError>
    ensures value { IfOk result (λ text. string_bytes text ≡ numbers_below count) }
    ensures formed { IfOk result (λ text. IsTrue (is_value (string_bytes text))) }
{
    let mut text = String::new(alloc);
    for n in 0..count {
        push_number(&mut text, n)?;
    }
    Ok(text)
}

/// Appends the next number, after a comma where it is not the first one.
fn push_number(text: &mut String, n: u32) -> Result<(), AllocError>
    requires { string_bytes text.old ≡ numbers_below n }
    ensures { IfOk result (λ _. string_bytes text.new ≡ numbers_below (n + 1)) }
{
    if n == 0 {
        return write!(text, "{n}");
    }
    write!(text, ",{n}")
}
