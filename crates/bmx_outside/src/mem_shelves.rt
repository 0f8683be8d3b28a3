//! Shelves in memory, for tests of what keeps bytes.
ghost use Rattle.std.specs.Prelude.{◌≡◌, ◌↔◌, ℕ, List, [], Some, IfOk, IfErr, IsErrOf, IsOkAnd, OnOk};
ghost use Rattle.std.specs.Str.{bytes_eq};
ghost use Rattle.std.specs.List.{position};
ghost use Rattle.bmx_outside.specs.Memory.{IsNextToFail, after_fault, after_success};
ghost use Rattle.bmx_outside.specs.Shelves.{Stores, file_of};

use crate::plans::{Calls, FaultPlan};
use crate::shelves::{Shelf, ShelfError};
use bmx_types::{Bytes, Items, NoMemory, Text};
use std::alloc::Global;
use std::marker::Model;

/// The bytes under a name.
#[derive(Debug, Drop)]
pub struct StoredFile {
    name: Text,
    bytes: Bytes,
}

/// A shelf in memory that never fails, though it may find no room. A call is linear in how many names
/// it holds. Contracts see its files.
#[derive(Debug, Drop)]
pub struct NoFaultShelf {
    files: Vec<StoredFile>,
}

impl Model for NoFaultShelf {
    ghost use Rattle.std.specs.Prelude.{List};
    ghost use Rattle.bmx_outside.specs.declared.mem_shelves.StoredFile.{StoredFile};

    ghost Value = { List StoredFile };

    ghost view = { λ s. s.files.items };
}

impl NoFaultShelf {
    /// An empty shelf, which takes no memory yet.
    pub fn new(alloc: Global) -> Result<Self, NoMemory>
        ensures { IsOkAnd result (λ s. s ≡ []) }
    {
        Ok(NoFaultShelf {
            files: Vec::new(alloc),
        })
    }

    /// The place of a name among the files.
    fn place(&self, name: &str) -> Option<usize>
        ensures { result ≡ position (λ f. bytes_eq f.name name.now) self.now }
    {
        self.files
            .iter()
            .position(|file| file.name.as_str() == name)
    }
}

impl Shelf for NoFaultShelf {
    ghost files = { λ s. Some (file_of s) };

    ghost faults = { λ _. 0 };

    /// A copy of the bytes.
    fn load(&mut self, alloc: Global, name: &str) -> Result<Option<Bytes>, ShelfError>
        ensures found { IfOk result (λ found. file_of self.old name.now ≡ found) }
        ensures stays { self.new ≡ self.old }
        ensures err { IfErr result (λ e. e ≡ ShelfError.NoMemory) }
    {
        let Some(place) = self.place(name) else {
            return Ok(None);
        };
        let bytes = self.files[place].bytes.copy(alloc)?;
        Ok(Some(bytes))
    }

    /// Keeps a copy of the bytes, or is as before where it finds no room.
    fn save(&mut self, name: &str, bytes: &[u8]) -> Result<(), ShelfError>
        ensures ok { OnOk result (Stores name.now bytes.now (file_of self.old) (file_of self.new)) }
        ensures err { IfErr result (λ e. (e ≡ ShelfError.NoMemory) × (self.new ≡ self.old)) }
    {
        let alloc = *self.files.allocator();
        let bytes = Items::from_vec(Vec::from_slice(alloc, bytes)?);
        match self.place(name) {
            Some(place) => self.files[place].bytes = bytes,
            None => {
                let name = Text::from_str(alloc, name)?;
                self.files.push(StoredFile { name, bytes })?;
            }
        }
        Ok(())
    }
}

/// A shelf in memory that fails at the calls of a list.
#[derive(Debug, Drop)]
pub struct MemShelf {
    shelf: NoFaultShelf,
    plan: FaultPlan,
}

impl Model for MemShelf {
    ghost use Rattle.bmx_outside.specs.Shelves.{FaultyShelf};

    ghost Value = { FaultyShelf };

    ghost view = { λ s. record { files = s.shelf; plan = s.plan } };
}

impl MemShelf {
    /// An empty shelf. The calls whose numbers, counted from 1, are in `fails` fail; none does from
    /// the number 2^64 - 1 on. A call that finds no room isn't counted.
    pub fn new(alloc: Global, fails: Calls) -> Result<Self, NoMemory>
        ensures { IsOkAnd result (λ s. s ≡ record {
          files = [];
          plan = record { fails = fails; calls = 0; faults = 0 };
        }) }
    {
        Ok(MemShelf {
            shelf: NoFaultShelf::new(alloc)?,
            plan: FaultPlan::new(fails),
        })
    }

    /// How many calls failed so far.
    pub fn faults(&self) -> u64
        ensures { result ≡ self.now.plan.faults }
    {
        self.plan.faults()
    }
}

impl Shelf for MemShelf {
    ghost files = { λ s. Some (file_of s.files) };

    ghost faults = { λ s. s.plan.faults };

    /// Fails where the plan says so. Otherwise it copies the bytes.
    fn load(&mut self, alloc: Global, name: &str) -> Result<Option<Bytes>, ShelfError>
        ensures fails { IsErrOf result ShelfError.Failed ↔ IsNextToFail self.old.plan }
        ensures found { IfOk result (λ found. file_of self.old.files name.now ≡ found) }
        ensures ok { OnOk result (self.new ≡ record self.old { plan = after_success self.old.plan }) }
        ensures fault { IsErrOf result ShelfError.Failed → self.new ≡ record self.old { plan = after_fault self.old.plan } }
        ensures no_memory { IsErrOf result ShelfError.NoMemory → self.new ≡ self.old }
    {
        if self.plan.is_next_to_fail() {
            self.plan.count_fault();
            return Err(ShelfError::Failed);
        }
        let found = self.shelf.load(alloc, name)?;
        self.plan.count_success();
        Ok(found)
    }

    /// Fails where the plan says so, and keeps what the name had. Otherwise it keeps a copy of the
    /// bytes, or is as before where it finds no room.
    fn save(&mut self, name: &str, bytes: &[u8]) -> Result<(), ShelfError>
        ensures fails { IsErrOf result ShelfError.Failed ↔ IsNextToFail self.old.plan }
        ensures ok { OnOk result (Stores name.now bytes.now (file_of self.old.files) (file_of self.new.files) × (self.new.plan ≡ after_success self.old.plan)) }
        ensures fault { IsErrOf result ShelfError.Failed → self.new ≡ record self.old { plan = after_fault self.old.plan } }
        ensures no_memory { IsErrOf result ShelfError.NoMemory → self.new ≡ self.old }
    {
        if self.plan.is_next_to_fail() {
            self.plan.count_fault();
            return Err(ShelfError::Failed);
        }
        self.shelf.save(name, bytes)?;
        self.plan.count_success();
        Ok(())
    }
}
