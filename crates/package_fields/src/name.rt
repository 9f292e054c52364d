ghost use Rattle.std.specs.Prelude.{◌≡◌, IfOk, string_bytes};
ghost use Rattle.std.specs.Str.{bytes_eq};

use crate::fault::NoMemory;
use std::alloc::Global;
use std::marker::Model;

/// A text that contracts see as its bytes.
#[derive(Debug, Drop)]
pub struct Name {
    text: String,
}

impl Model for Name {
    ghost use Rattle.std.specs.Prelude.{List, ℕ, string_bytes};

    ghost Value = { List ℕ };

    ghost view = { λ n. string_bytes n.text };
}

impl Name {
    /// The name with this text, which is moved in.
    pub fn of(text: String) -> Name
        ensures { result ≡ string_bytes text }
    {
        Name { text }
    }

    /// A copy of the text.
    pub fn copy_of(alloc: Global, text: &str) -> Result<Name, NoMemory>
        ensures { IfOk result (λ name. name ≡ text.now) }
    {
        Ok(Name {
            text: String::from_str(alloc, text)?,
        })
    }

    /// The text.
    pub fn as_str(&self) -> &str
        ensures { result.now ≡ self.now }
    {
        self.text.as_str()
    }

    /// Whether the name is this text.
    pub fn is(&self, text: &str) -> bool
        ensures { result ≡ bytes_eq text.now self.now }
    {
        text == self.text.as_str()
    }
}
