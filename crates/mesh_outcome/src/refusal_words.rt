// The words of each refusal.
ghost use Rattle.std.specs.Prelude.{◌≡◌, ◌++◌, codes, IfOk, string_bytes};
ghost use Rattle.std.specs.Fmt.{decimal, signed_decimal};
ghost use Rattle.mesh_outcome.specs.Lines.{line};
ghost use Rattle.mesh_outcome.specs.RefusalWords.{deck_words, field_words, place_words, problem_words, refusal_words};
ghost use Rattle.mesh_outcome.specs.RefusalWords.{usage_words};

use input_file::DeckFault;
use mesh_input::Refusal;
use mesh_num::NoMemory;
use mesh_words::UsageFault;
use package_fields::FieldFault;
use problem_set::ProblemFault;
use std::alloc::Global;

/// The line that tells which rule refuses the words.
pub fn usage_line(fault: UsageFault) -> &'static str
    ensures { result.now ≡ line (codes "usage: " ++ usage_words fault) }
{
    match fault {
        UsageFault::NotTheCommand => "usage: words\n",
        UsageFault::NoInput => "usage: no input\n",
        UsageFault::TwoInputs => "usage: two inputs\n",
        UsageFault::Large => "usage: -l\n",
        UsageFault::Workers => "usage: -w\n",
        UsageFault::Seed => "usage: -g\n",
        UsageFault::Prefix => "usage: -d\n",
        UsageFault::NotBuilt => "usage: not built\n",
        UsageFault::NoMemory => "usage: no memory\n",
    }
}

/// Why the input is refused.
pub fn refusal_words(alloc: Global, refusal: &Refusal) -> Result<String, NoMemory>
    ensures { IfOk result (λ text. string_bytes text ≡ refusal_words refusal.now) }
{
    match refusal {
        Refusal::Deck { fault } => deck_words(alloc, *fault),
        Refusal::Override { number } => Ok(format!(in alloc; "override {}", *number)?),
        Refusal::Problem { fault } => problem_words(alloc, fault),
        Refusal::NotBuilt => Ok(String::from_str(alloc, "not built")?),
    }
}

// What is wrong with the bytes.
fn deck_words(alloc: Global, fault: DeckFault) -> Result<String, NoMemory>
    ensures { IfOk result (λ text. string_bytes text ≡ deck_words fault) }
{
    match fault {
        DeckFault::Syntax { line } => Ok(format!(in alloc; "line {line} syntax")?),
        DeckFault::NoBlock { line } => Ok(format!(in alloc; "line {line} no block")?),
        DeckFault::NotText { place } => Ok(format!(in alloc; "byte {place} not text")?),
        DeckFault::BadOverride => Ok(String::from_str(alloc, "override")?),
        DeckFault::TooLong => Ok(String::from_str(alloc, "too long")?),
        DeckFault::NoMemory => Ok(String::from_str(alloc, "no memory")?),
    }
}

// What is wrong with the problem.
fn problem_words(alloc: Global, fault: &ProblemFault) -> Result<String, NoMemory>
    ensures { IfOk result (λ text. string_bytes text ≡ problem_words fault.now) }
{
    match fault {
        ProblemFault::Missing { block, name } => missing_words(
            alloc,
            block.as_str(),
            name.as_str(),
        ),
        ProblemFault::BadValue { block, name } => value_words(alloc, block.as_str(), name.as_str()),
        ProblemFault::Limit { block, name, value } => {
            limit_words(alloc, block.as_str(), name.as_str(), *value)
        }
        ProblemFault::Rates { label, sum } => rates_words(alloc, label.as_str(), *sum),
        ProblemFault::Bound { total } => bound_words(alloc, *total),
        ProblemFault::Fields { fault } => field_words(alloc, fault),
        ProblemFault::NoMemory => Ok(String::from_str(alloc, "no memory")?),
    }
}

fn missing_words(alloc: Global, block: &str, name: &str) -> Result<String, NoMemory>
    ensures { IfOk result (λ text. string_bytes text ≡ codes "missing " ++ place_words block.now name.now) }
{
    Ok(format!(in alloc; "missing {block} {name}")?)
}

fn value_words(alloc: Global, block: &str, name: &str) -> Result<String, NoMemory>
    ensures { IfOk result (λ text. string_bytes text ≡ codes "value " ++ place_words block.now name.now) }
{
    Ok(format!(in alloc; "value {block} {name}")?)
}

fn limit_words(alloc: Global, block: &str, name: &str, value: i128) -> Result<String, NoMemory>
    ensures { IfOk result (λ text. string_bytes text
        ≡ codes "limit " ++ (block.now ++ (codes " " ++ (name.now ++ (codes " = " ++ signed_decimal value))))) }
{
    Ok(format!(in alloc; "limit {block} {name} = {value}")?)
}

fn rates_words(alloc: Global, label: &str, sum: u64) -> Result<String, NoMemory>
    ensures { IfOk result (λ text. string_bytes text
        ≡ codes "rates " ++ (label.now ++ (codes " sum " ++ decimal sum))) }
{
    Ok(format!(in alloc; "rates {label} sum {sum}")?)
}

fn bound_words(alloc: Global, total: u128) -> Result<String, NoMemory>
    ensures { IfOk result (λ text. string_bytes text ≡ codes "bound " ++ decimal total) }
{
    Ok(format!(in alloc; "bound {total}")?)
}

// What is wrong with the fields.
fn field_words(alloc: Global, fault: &FieldFault) -> Result<String, NoMemory>
    ensures { IfOk result (λ text. string_bytes text ≡ field_words fault.now) }
{
    match fault {
        FieldFault::Twice { name } => named_words(alloc, "field twice ", name.as_str()),
        FieldFault::BadFlags { name } => named_words(alloc, "field flags ", name.as_str()),
        FieldFault::TooMany { count } => Ok(format!(in alloc; "fields {}", *count)?),
        FieldFault::NoMemory => Ok(String::from_str(alloc, "no memory")?),
    }
}

fn named_words(alloc: Global, words: &str, name: &str) -> Result<String, NoMemory>
    ensures { IfOk result (λ text. string_bytes text ≡ words.now ++ name.now) }
{
    Ok(format!(in alloc; "{words}{name}")?)
}
