//! The current folder as a shelf: the one file of the workspace that touches files.
ghost use Rattle.std.specs.Prelude.{◌≡◌, None};

use crate::shelves::{Shelf, ShelfError};
use crate::sinks::{SinkError, write_all};
use crate::sources::{ReadError, read_to_limit};
use crate::standard::{StdSink, StdSource};
use bmx_types::{Bytes, Items};
use std::alloc::Global;
use std::fs;
use std::io::ErrorKind;
use std::marker::Model;
use std::rt::Files;

/// How many bytes of a file are read at most: 8 MiB and 1 byte.
const MOST_BYTES: usize = 8 * 1024 * 1024 + 1;

/// The current folder, of whose files no contract tells the bytes. Contracts see how many of its calls
/// failed.
#[derive(Drop)]
pub struct DirShelf<'r, R> {
    rt: &'r R,
    faults: u64,
}

impl<'r, R> Model for DirShelf<'r, R> {
    ghost use Rattle.std.specs.Prelude.{ℕ};

    ghost Value = { ℕ };

    ghost view = { λ s. s.faults };
}

impl<'r, R: Files> DirShelf<'r, R> {
    /// The current folder, before its first fault.
    pub fn new(rt: &'r R) -> Self
        ensures { result ≡ 0 }
    {
        DirShelf { rt, faults: 0 }
    }

    /// How many calls failed so far, which stands still at 2^64 - 1.
    pub fn faults(&self) -> u64
        ensures { result ≡ self.now }
    {
        self.faults
    }
}

/// The first 8 MiB and 1 byte of a file, None where there is none of that name.
fn read<R: Files>(rt: &R, alloc: Global, name: &str) -> Result<Option<Bytes>, ShelfError> {
    let file = match fs::open(rt, name) {
        Ok(file) => file,
        Err(error) if error.kind() == ErrorKind::NotFound => return Ok(None),
        Err(_) => return Err(ShelfError::Failed),
    };
    match read_to_limit(alloc, &mut StdSource::new(file), MOST_BYTES) {
        Ok(bytes) => Ok(Some(Items::from_vec(bytes))),
        Err(ReadError::NoMemory) => Err(ShelfError::NoMemory),
        Err(ReadError::Failed) => Err(ShelfError::Failed),
    }
}

/// Makes or empties a file, and writes bytes to it.
fn write<R: Files>(rt: &R, name: &str, bytes: &[u8]) -> Result<(), ShelfError> {
    let Ok(file) = fs::create(rt, name) else {
        return Err(ShelfError::Failed);
    };
    match write_all(&mut StdSink::new(file), bytes) {
        Ok(()) => Ok(()),
        Err(SinkError::NoMemory) => Err(ShelfError::NoMemory),
        Err(SinkError::Failed) => Err(ShelfError::Failed),
    }
}

impl<'r, R: Files> Shelf for DirShelf<'r, R> {
    ghost files = { λ _. None };

    ghost faults = { λ faults. faults };

    /// Reads the file, at most 8 MiB and 1 byte of it. Once the count of faults is at its end each
    /// call fails.
    fn load(&mut self, alloc: Global, name: &str) -> Result<Option<Bytes>, ShelfError> {
        if self.faults == u64::MAX {
            return Err(ShelfError::Failed);
        }
        let found = read(self.rt, alloc, name);
        if let Err(ShelfError::Failed) = found {
            self.faults += 1;
        }
        found
    }

    /// Makes or replaces the file. Once the count of faults is at its end each call fails.
    fn save(&mut self, name: &str, bytes: &[u8]) -> Result<(), ShelfError> {
        if self.faults == u64::MAX {
            return Err(ShelfError::Failed);
        }
        let saved = write(self.rt, name, bytes);
        if let Err(ShelfError::Failed) = saved {
            self.faults += 1;
        }
        saved
    }
}
