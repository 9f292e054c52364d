//! Calls, and what they left.

use mesh_cli::{Status, mesh_plain};
use mesh_outside::{Bytes, Fail, Fails, File, Files, MemDepot, MemSink, Name, Written};
use std::alloc::{AllocError, Global};

/// What a call left.
#[derive(Drop)]
pub struct Called {
    pub status: Status,
    pub depot: MemDepot,
    pub out: MemSink,
}

impl Called {
    /// Whether it ended with a status, printed a text, and left so many files.
    pub fn ended(&self, status: Status, printed: &str, files: usize) -> bool {
        self.status == status
            && self.out.printed() == printed.as_bytes()
            && self.depot.written().len() == files
    }
}

/// A call with these words. Its depot has these bytes under the name `deck`, and nothing fails.
pub fn call(alloc: Global, texts: &[&str], deck: &[u8]) -> Result<Called, AllocError> {
    call_failing(alloc, texts, deck, Fails::new(alloc), 0)
}

/// The same with the words `-i deck` and these.
pub fn call_with(alloc: Global, texts: &[&str], deck: &[u8]) -> Result<Called, AllocError> {
    let mut words = words(alloc, &["-i", "deck"])?;
    push_words(&mut words, texts)?;
    call_words(alloc, words, deck, Fails::new(alloc), 0)
}

/// The same, where these calls of the depot fail, and the print of this number, if it is not 0.
pub fn call_failing(
    alloc: Global,
    texts: &[&str],
    deck: &[u8],
    fails: Fails,
    fail_at: u64,
) -> Result<Called, AllocError> {
    let words = words(alloc, texts)?;
    call_words(alloc, words, deck, fails, fail_at)
}

fn call_words(
    alloc: Global,
    words: Vec<String>,
    deck: &[u8],
    fails: Fails,
    fail_at: u64,
) -> Result<Called, AllocError> {
    let files = input(alloc, "deck", deck)?;
    let mut depot = MemDepot::new(alloc, files, 1000, fails);
    let mut out = MemSink::new(alloc, fail_at);
    let status = mesh_plain(alloc, words.as_slice(), &mut depot, &mut out);
    Ok(Called { status, depot, out })
}

/// One input file.
pub fn input(alloc: Global, name: &str, bytes: &[u8]) -> Result<Files, AllocError> {
    let mut files = Files::new(alloc);
    let name = Name::of(String::from_str(alloc, name)?);
    files.push(File {
        name,
        bytes: Bytes::of(Vec::from_slice(alloc, bytes)?),
    })?;
    Ok(files)
}

/// Texts as words of a command line.
pub fn words(alloc: Global, texts: &[&str]) -> Result<Vec<String>, AllocError> {
    let mut words = Vec::new(alloc);
    push_words(&mut words, texts)?;
    Ok(words)
}

fn push_words(words: &mut Vec<String>, texts: &[&str]) -> Result<(), AllocError> {
    let alloc = *words.allocator();
    for text in texts {
        words.push(String::from_str(alloc, text)?)?;
    }
    Ok(())
}

/// One call of a depot that fails.
pub fn failing(alloc: Global, fail: Fail) -> Result<Fails, AllocError> {
    let mut fails = Fails::new(alloc);
    fails.push(fail)?;
    Ok(fails)
}

/// Whether the file at a place has this name and text, and is finished.
pub fn is_file(written: &Written, at: usize, name: &str, text: &str) -> bool {
    match written.get(at) {
        Some(file) => {
            file.whole && file.name.as_str() == name && file.bytes.as_bytes() == text.as_bytes()
        }
        None => false,
    }
}
