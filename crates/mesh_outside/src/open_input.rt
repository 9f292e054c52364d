ghost use Rattle.std.specs.Prelude.{◌≡◌, ◌≢◌, ◌≤◌, ◌<◌, length, take, OnOk, IfOk, IfErr, IsTrue};
ghost use Rattle.std.specs.IoError.{error_kind};
ghost use Rattle.std.specs.Io.KnownBytes.{ReadConsumes};
ghost use Rattle.mesh_outside.specs.OpenInput.{IsMoved, behind};

use std::io;
use std::io::{ErrorKind, Read, Seek, SeekFrom};

/// The longest name of a file that is opened: Linux opens none that is longer.
const LONGEST_NAME: usize = 4096;

/// A file that is open for reading, by its name, and the place up to which it was read.
#[derive(Drop)]
pub(crate) struct OpenInput<F> {
    pub(crate) name: [u8; LONGEST_NAME],
    pub(crate) length: usize,
    pub(crate) file: F,
    pub(crate) place: u64,
    pub(crate) ghost within: { length ≤ 4096 },
}

impl<F> OpenInput<F> {
    /// Whether this is the file of a name, read up to a place.
    pub(crate) fn is_at(&self, name: &str, from: u64) -> bool
        ensures name { IsTrue result → take self.now.length self.now.name ≡ name.now }
        ensures place { IsTrue result → self.now.place ≡ from }
    {
        self.place == from && &self.name[..self.length] == name.as_bytes()
    }
}

impl<F: Read> OpenInput<F> {
    /// Reads on, into the start of `into`, and answers how many bytes.
    pub(crate) fn read_on(&mut self, into: &mut [u8]) -> io::Result<usize>
        ensures within { IfOk result (λ count. count ≤ length into.old) }
        ensures bytes { ReadConsumes (F.remaining self.old.file) (F.remaining self.new.file) result into.new }
        ensures place { IfOk result (λ count. self.new.place ≡ behind self.old.place count) }
        ensures name { self.new.name ≡ self.old.name }
        ensures length { self.new.length ≡ self.old.length }
    {
        let count = read_retrying(&mut self.file, into)?;
        self.place = self.place.saturating_add(count as u64);
        Ok(count)
    }
}

/// A file that was opened under a name, moved to a place. One that is to be read from its start is not moved, so that
/// it may be a pipe.
pub(crate) fn opened_at<F: Seek + Drop>(file: F, name: &str, from: u64) -> io::Result<OpenInput<F>>
    ensures moved { IfOk result (λ input. IsMoved F.stream_position from file input.file) }
    ensures place { IfOk result (λ input. input.place ≡ from) }
    ensures name { IfOk result (λ input. take input.length input.name ≡ name.now) }
{
    if LONGEST_NAME < name.len() {
        return Err(io::Error::from(ErrorKind::InvalidInput));
    }
    let mut file = file;
    if from != 0 {
        file.seek(SeekFrom::Start(from))?;
    }
    let mut kept = [0u8; LONGEST_NAME];
    kept[..name.len()].copy_from_slice(name.as_bytes());
    Ok(OpenInput {
        name: kept,
        length: name.len(),
        file,
        place: from,
    })
}

// One read, which is tried again where a signal interrupts it.
fn read_retrying<F: Read>(file: &mut F, into: &mut [u8]) -> io::Result<usize>
    ensures within { IfOk result (λ count. count ≤ length into.old) }
    ensures bytes { ReadConsumes (F.remaining file.old) (F.remaining file.new) result into.new }
    ensures retried { IfErr result (λ e. error_kind e ≢ ErrorKind.Interrupted) }
{
    for _ in 0..u64::MAX {
        match file.read(into) {
            Err(error) if error.kind() == ErrorKind::Interrupted => {}
            answer => return answer,
        }
    }
    Err(io::Error::from(ErrorKind::TimedOut))
}
