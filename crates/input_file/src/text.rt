ghost use Rattle.std.specs.Prelude.{◌≡◌};
ghost use Rattle.std.specs.List.{list_any};
ghost use Rattle.input_file.specs.Texts.{trimmed, is_trimmed, is_empty};
ghost use Rattle.input_file.specs.Texts.{is_block_name, is_key, is_value, is_barred, is_barred_in_block};
ghost use Rattle.input_file.specs.Texts.{is_barred_in_key};

/// The text without the spaces and tabs at both ends.
pub fn trim(text: &str) -> &str
    ensures { result.now ≡ trimmed text.now }
{
    text.trim_matches([' ', '\t'])
}

/// Whether the text has no space or tab at either end.
pub fn is_trimmed(text: &str) -> bool
    ensures { result ≡ is_trimmed text.now }
{
    trim(text) == text
}

/// Whether the text may be a block's name.
pub fn is_block_name(text: &str) -> bool
    ensures { result ≡ is_block_name text.now }
{
    !text.is_empty() && is_trimmed(text) && !has_barred_in_block(text)
}

/// Whether the text may be a key.
pub fn is_key(text: &str) -> bool
    ensures { result ≡ is_key text.now }
{
    !text.is_empty() && !text.starts_with('<') && is_trimmed(text) && !has_barred_in_key(text)
}

/// Whether the text may be a value.
pub fn is_value(text: &str) -> bool
    ensures { result ≡ is_value text.now }
{
    is_trimmed(text) && !has_barred(text)
}

fn is_barred(b: u8) -> bool
    ensures { result ≡ is_barred b }
{
    b == b'#' || b == b'\r' || b == b'\n'
}

fn is_barred_in_block(b: u8) -> bool
    ensures { result ≡ is_barred_in_block b }
{
    b == b'<' || b == b'>' || b == b'=' || is_barred(b)
}

fn is_barred_in_key(b: u8) -> bool
    ensures { result ≡ is_barred_in_key b }
{
    b == b'=' || b == b'/' || is_barred(b)
}

fn has_barred_in_block(text: &str) -> bool
    ensures { result ≡ list_any is_barred_in_block text.now }
{
    text.bytes().any(|b| is_barred_in_block(b))
}

fn has_barred_in_key(text: &str) -> bool
    ensures { result ≡ list_any is_barred_in_key text.now }
{
    text.bytes().any(|b| is_barred_in_key(b))
}

fn has_barred(text: &str) -> bool
    ensures { result ≡ list_any is_barred text.now }
{
    text.bytes().any(|b| is_barred(b))
}
