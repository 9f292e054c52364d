ghost use Rattle.std.specs.Prelude.{◌≡◌};
ghost use Rattle.std.specs.List.{before_first};
ghost use Rattle.input_file.specs.Texts.{is_hash};
ghost use Rattle.input_file.specs.Lines.{IsFormed, cleaned, without_return, form_of, form_of_cleaned, header_form};
ghost use Rattle.input_file.specs.Lines.{header_if_named, setting_form, setting_if_formed};
ghost use Rattle.input_file.specs.SeenForm.{seen_form};

use crate::text::{is_block_name, is_key, is_value, trim};

/// What a line says.
#[derive(Drop)]
pub enum LineForm<'a> {
    /// Nothing but blanks and a comment.
    Blank,
    /// A block begins.
    Header(&'a str),
    /// A key has a value.
    Setting { key: &'a str, value: &'a str },
    /// It is of no form.
    Malformed,
}

/// The form of a line, which is given without the LF at its end.
pub fn form_of(line: &str) -> LineForm<'_>
    ensures form { seen_form result ≡ form_of line.now }
    ensures formed { IsFormed (seen_form result) }
{
    form_of_cleaned(clean(line))
}

fn clean(line: &str) -> &str
    ensures { result.now ≡ cleaned line.now }
{
    trim(strip_comment(strip_return(line)))
}

fn strip_return(line: &str) -> &str
    ensures { result.now ≡ without_return line.now }
{
    match line.strip_suffix('\r') {
        Some(front) => front,
        None => line,
    }
}

fn strip_comment(line: &str) -> &str
    ensures { result.now ≡ before_first is_hash line.now }
{
    match line.split_once('#') {
        Some((front, _)) => front,
        None => line,
    }
}

fn form_of_cleaned(line: &str) -> LineForm<'_>
    ensures form { seen_form result ≡ form_of_cleaned line.now }
    ensures formed { IsFormed (seen_form result) }
{
    if line.is_empty() {
        return LineForm::Blank;
    }
    match line.strip_prefix('<') {
        Some(rest) => header_form(rest),
        None => setting_form(line),
    }
}

fn header_form(rest: &str) -> LineForm<'_>
    ensures form { seen_form result ≡ header_form rest.now }
    ensures formed { IsFormed (seen_form result) }
{
    match rest.strip_suffix('>') {
        Some(inner) => header_if_named(trim(inner)),
        None => LineForm::Malformed,
    }
}

fn header_if_named(name: &str) -> LineForm<'_>
    ensures form { seen_form result ≡ header_if_named name.now }
    ensures formed { IsFormed (seen_form result) }
{
    if is_block_name(name) {
        LineForm::Header(name)
    } else {
        LineForm::Malformed
    }
}

fn setting_form(line: &str) -> LineForm<'_>
    ensures form { seen_form result ≡ setting_form line.now }
    ensures formed { IsFormed (seen_form result) }
{
    match line.split_once('=') {
        Some((key, value)) => setting_if_formed(trim(key), trim(value)),
        None => LineForm::Malformed,
    }
}

fn setting_if_formed<'a>(key: &'a str, value: &'a str) -> LineForm<'a>
    ensures form { seen_form result ≡ setting_if_formed key.now value.now }
    ensures formed { IsFormed (seen_form result) }
{
    if is_key(key) && is_value(value) {
        LineForm::Setting { key, value }
    } else {
        LineForm::Malformed
    }
}
