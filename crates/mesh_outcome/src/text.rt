ghost use Rattle.std.specs.Prelude.{◌≡◌};
ghost use Rattle.mesh_outcome.specs.Text.{bytes_of};

/// What is printed.
#[derive(Drop)]
pub enum Text {
    /// A line that is the same each time.
    Fixed { line: &'static str },
    /// A text that was made.
    Made { text: Vec<u8> },
}

impl Text {
    /// Its bytes.
    pub fn as_bytes(&self) -> &[u8]
        ensures { result.now ≡ bytes_of self.now }
    {
        match self {
            Text::Fixed { line } => line.as_bytes(),
            Text::Made { text } => text.as_slice(),
        }
    }
}
