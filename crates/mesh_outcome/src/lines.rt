ghost use Rattle.std.specs.Prelude.{◌≡◌, ◌++◌, Ok, codes, IfOk, IsOk, string_bytes};
ghost use Rattle.mesh_outcome.specs.Lines.{IsFixed, done_words, line, text_of, too_many_words};
ghost use Rattle.mesh_outcome.specs.RefusalWords.{refusal_words};
ghost use Rattle.mesh_outcome.specs.Text.{bytes_of};

use crate::refusal_words::{refusal_words, usage_line};
use crate::{Outcome, Text};
use mesh_input::Refusal;
use mesh_num::NoMemory;
use std::alloc::Global;

/// What is printed of an outcome: its line, or the text of the deck that is listed. A line of no number and no name
/// takes no memory.
pub fn text_of(alloc: Global, outcome: &Outcome) -> Result<Text, NoMemory>
    ensures text { IfOk result (λ text. bytes_of text ≡ text_of outcome.now) }
    ensures fixed { IsFixed outcome.now → IsOk result }
{
    match outcome {
        Outcome::Listed { deck } => match deck.print() {
            Ok(text) => Ok(Text::Made { text }),
            Err(_) => Err(NoMemory),
        },
        Outcome::Done {
            cycles,
            blocks,
            total,
        } => done_line(alloc, *cycles, *blocks, *total),
        Outcome::Usage { fault } => fixed(usage_line(*fault)),
        Outcome::Refused { refusal } => refusal_line(alloc, refusal),
        Outcome::ReadFault => fixed("read fault\n"),
        Outcome::WriteFault => fixed("write fault\n"),
        Outcome::NoMemory => fixed("no memory\n"),
        Outcome::TooManyAtStart => fixed("too many blocks at start\n"),
        Outcome::TooManyBlocks { cycle, leaves } => too_many_line(alloc, *cycle, *leaves),
    }
}

fn fixed(line: &'static str) -> Result<Text, NoMemory>
    ensures { result ≡ Ok (Text.Fixed line.entry) }
{
    Ok(Text::Fixed { line })
}

fn done_line(alloc: Global, cycles: u32, blocks: u32, total: u64) -> Result<Text, NoMemory>
    ensures { IfOk result (λ text. bytes_of text ≡ line (done_words cycles blocks total)) }
{
    let words = format!(in alloc; "done cycles={cycles} blocks={blocks} total={total}")?;
    line_of(words)
}

fn too_many_line(alloc: Global, cycle: u32, leaves: u64) -> Result<Text, NoMemory>
    ensures { IfOk result (λ text. bytes_of text ≡ line (too_many_words cycle leaves)) }
{
    let words = format!(in alloc; "too many blocks at cycle {cycle}: {leaves}")?;
    line_of(words)
}

fn refusal_line(alloc: Global, refusal: &Refusal) -> Result<Text, NoMemory>
    ensures { IfOk result (λ text. bytes_of text ≡ line (codes "refused: " ++ refusal_words refusal.now)) }
{
    let cause = refusal_words(alloc, refusal)?;
    let words = format!(in alloc; "refused: {cause}")?;
    line_of(words)
}

// The bytes of a line with these words.
fn line_of(words: String) -> Result<Text, NoMemory>
    ensures { IfOk result (λ text. bytes_of text ≡ line (string_bytes words)) }
{
    let mut text = words;
    text.push('\n')?;
    Ok(Text::Made {
        text: text.into_bytes(),
    })
}
