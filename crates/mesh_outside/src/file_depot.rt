ghost use Rattle.std.specs.Prelude.{◌≡◌, ◌≤◌, true, false, length, Ok, Some, None, Err, IsTrue, is_some, is_ok, IfOk};
ghost use Rattle.std.specs.Prelude.{OnOk, OnErr, IfSome, take, option_map};
ghost use Rattle.std.specs.Io.KnownBytes.{Appends};
ghost use Rattle.mesh_outside.specs.Depot.{AfterReads, AfterWrites};
ghost use Rattle.mesh_outside.specs.Gained.{begun, appended, finished, AppendsPrefix};
ghost use Rattle.mesh_outside.specs.FileDepot.{opening, read_to, seen_files};
ghost use Rattle.mesh_outside.specs.OpenInput.{behind};

use crate::counting::counted;
use crate::open_input::{OpenInput, opened_at};
use crate::{Depot, OutFault};
use std::fs::OpenFile;
use std::io::{Read, Seek, Write};
use std::marker::Model;
use std::rt::Files as FileSystem;
use std::{fs, io};

/// A depot of real files. It tells nothing of their content, and counts each failed read and each
/// failed write. It takes no memory, so it never answers `NoMemory`.
///
/// An input stays open while its pieces are read one after another, so that it may be a pipe. A file
/// that was there under the name of a new one is replaced. A finished file is on the disk, as far as
/// the system tells.
#[derive(Drop)]
pub struct FileDepot<'a, R: FileSystem> {
    system: &'a R,
    reading: Option<OpenInput<R::File>>,
    writing: Option<R::File>,
    failed_reads: u64,
    failed_writes: u64,
}

impl<'a, R: FileSystem> Model for FileDepot<'a, R> {
    ghost use Rattle.std.specs.Prelude.{take, is_some, option_map};
    ghost use Rattle.mesh_outside.specs.FileDepot.{FileState, read_to};

    ghost Value = { FileState };

    ghost view = { λ d. record {
      reading =
          option_map (λ input. read_to (take input.length input.name) input.place) d.reading;
      is_writing =
          is_some d.writing;
      failed_reads = d.failed_reads;
      failed_writes = d.failed_writes;
    } };
}

impl<'a, R: FileSystem> FileDepot<'a, R> {
    /// A depot of the files that the runtime gives.
    pub fn new(system: &'a R) -> FileDepot<'a, R>
        ensures { result ≡ opening }
    {
        FileDepot {
            system,
            reading: None,
            writing: None,
            failed_reads: 0,
            failed_writes: 0,
        }
    }
}

impl<'a, R: FileSystem> Depot for FileDepot<'a, R> {
    ghost use Rattle.mesh_outside.specs.FileDepot.{seen_files};

    ghost seen = { seen_files };

    fn read_piece(&mut self, name: &str, from: u64, into: &mut [u8]) -> Result<usize, OutFault>
        ensures within { IfOk result (λ count. count ≤ length into.old) }
        ensures place { IfOk result (λ count. self.new.reading ≡ Some (read_to name.now (behind from count))) }
        ensures memory { result ≡ Err OutFault.NoMemory → ⊥ }
        ensures after { AfterReads name.now (result ≡ Err OutFault.Failed) (seen_files self.old) (seen_files self.new) }
    {
        counted(
            read_at(self.system, &mut self.reading, name, from, into),
            &mut self.failed_reads,
        )
    }

    fn begin(&mut self, name: &str) -> Result<(), OutFault>
        ensures ok { OnOk result ((seen_files self.new).written
            ≡ option_map (begun name.now) (seen_files self.old).written) }
        ensures err { OnErr result ((seen_files self.new).written ≡ (seen_files self.old).written) }
        ensures open { self.new.is_writing ≡ is_ok result }
        ensures memory { result ≡ Err OutFault.NoMemory → ⊥ }
        ensures after { AfterWrites (result ≡ Err OutFault.Failed) (seen_files self.old) (seen_files self.new) }
    {
        counted(
            begin_in(&mut self.writing, fs::create(self.system, name)),
            &mut self.failed_writes,
        )
    }

    fn append(&mut self, bytes: &[u8]) -> Result<(), OutFault>
        ensures ok { OnOk result ((seen_files self.new).written
            ≡ option_map (appended bytes.now) (seen_files self.old).written) }
        ensures err { OnErr result (AppendsPrefix bytes.now (seen_files self.old).written
            (seen_files self.new).written) }
        ensures open { self.new.is_writing ≡ self.old.is_writing }
        ensures memory { result ≡ Err OutFault.NoMemory → ⊥ }
        ensures after { AfterWrites (result ≡ Err OutFault.Failed) (seen_files self.old) (seen_files self.new) }
    {
        counted(append_to(&mut self.writing, bytes), &mut self.failed_writes)
    }

    fn finish(&mut self) -> Result<(), OutFault>
        ensures ok { OnOk result ((seen_files self.new).written ≡ option_map finished (seen_files self.old).written) }
        ensures err { OnErr result ((seen_files self.new).written ≡ (seen_files self.old).written) }
        ensures closed { self.new.is_writing ≡ false }
        ensures memory { result ≡ Err OutFault.NoMemory → ⊥ }
        ensures after { AfterWrites (result ≡ Err OutFault.Failed) (seen_files self.old) (seen_files self.new) }
    {
        counted(close(&mut self.writing), &mut self.failed_writes)
    }
}

// Reads the bytes of a file from a place on: of the open one, if it is this and stands there, else of one that is
// opened.
fn read_at<R: FileSystem>(
    system: &R,
    reading: &mut Option<OpenInput<R::File>>,
    name: &str,
    from: u64,
    into: &mut [u8],
) -> io::Result<usize>
    ensures within { IfOk result (λ count. count ≤ length into.old) }
    ensures place { IfOk result (λ count. option_map (λ input. read_to
        (take input.length input.name) input.place) reading.new ≡ Some (read_to name.now (behind from count))) }
{
    if !is_at(reading, name, from) {
        *reading = None;
        *reading = Some(opened_at(fs::open(system, name)?, name, from)?);
    }
    match reading {
        Some(input) => input.read_on(into),
        None => Err(io::Error::from(io::ErrorKind::NotFound)),
    }
}

// Whether the file of a name is open, and was read up to a place.
fn is_at<F>(reading: &Option<OpenInput<F>>, name: &str, from: u64) -> bool
    ensures { IsTrue result → option_map (λ input. read_to (take input.length input.name) input.place) reading.now
        ≡ Some (read_to name.now from) }
{
    match reading {
        Some(input) => input.is_at(name, from),
        None => false,
    }
}

// Keeps a file that was created, in place of the one that was written before.
fn begin_in<F: Drop>(writing: &mut Option<F>, created: io::Result<F>) -> io::Result<()>
    ensures created { IfOk created (λ file. writing.new ≡ Some file) }
    ensures refused { OnErr created (writing.new ≡ None) }
    ensures answer { is_ok result ≡ is_ok created }
{
    *writing = None;
    *writing = Some(created?);
    Ok(())
}

// Writes all bytes to the file that is written, and fails where there is none.
fn append_to<F: Write>(writing: &mut Option<F>, bytes: &[u8]) -> io::Result<()>
    ensures bytes { OnOk result (IfSome writing.old (λ f. IfSome writing.new (λ g. Appends (F.contents f)
        (F.contents g) bytes.now))) }
    ensures open { is_some writing.new ≡ is_some writing.old }
{
    match writing {
        Some(file) => file.write_all(bytes),
        None => Err(io::Error::from(io::ErrorKind::NotFound)),
    }
}

// Closes the file that is written, once the system has kept its bytes, and fails where there is none.
fn close<F: OpenFile + Drop>(writing: &mut Option<F>) -> io::Result<()>
    ensures { writing.new ≡ None }
{
    match writing.take() {
        Some(file) => file.sync_all(),
        None => Err(io::Error::from(io::ErrorKind::NotFound)),
    }
}
