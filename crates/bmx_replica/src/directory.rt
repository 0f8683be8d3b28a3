//! Where the object of a name lies. It knows nothing of words.
ghost use Rattle.std.specs.Prelude.{◌≡◌, ◌+◌, ◌<◌, ◌≤◌, [], length, slice_get, IsSome, IsOk, OnOk, Some, None};
ghost use Rattle.bmx_replica.specs.Slots.{slot_of};
ghost use Rattle.bmx_replica.specs.Inside.Slots.{PutsSlot};

use bmx_types::{Address, Name, NoMemory};
use indexmap::IndexMap;
use std::alloc::Global;
use std::marker::Model;

/// Where a node has the object of a name, and whether what stands there is a copy of its fields.
#[derive(Clone, Copy, Debug, PartialEq, Eq)]
pub(crate) struct Slot {
    pub(crate) address: Address,
    pub(crate) has_copy: bool,
}

/// The slots of names. A name is found in expected constant time.
#[derive(Drop)]
pub(crate) struct Directory {
    slots: IndexMap<Name, Slot>,
}

impl Model for Directory {
    ghost use Rattle.indexmap.specs.IndexMap.{spare};
    ghost use Rattle.bmx_replica.specs.Inside.Slots.{Listing};

    ghost Value = { Listing };

    ghost view = { λ d. record { slots = d.slots.entries; spare = spare d.slots } };
}

impl Directory {
    /// No name. Takes no memory.
    pub(crate) fn new(alloc: Global) -> Directory
        ensures { result.slots ≡ [] }
    {
        Directory {
            slots: IndexMap::new(alloc),
        }
    }

    /// How many names there are.
    pub(crate) fn len(&self) -> usize
        ensures { result ≡ length self.now.slots }
    {
        self.slots.len()
    }

    /// The i-th name.
    pub(crate) fn at(&self, i: usize) -> (Name, Slot)
        requires { i < length self.now.slots }
        ensures { slice_get self.now.slots i ≡ Some result }
    {
        let Some((name, slot)) = self.slots.get_index(i) else {
            unreachable!()
        };
        (*name, *slot)
    }

    /// The slot of a name.
    pub(crate) fn get(&self, name: Name) -> Option<Slot>
        ensures { result ≡ slot_of self.now.slots name }
    {
        self.slots.get(&name).copied()
    }

    /// Makes `spare` at least n.
    pub(crate) fn reserve(&mut self, n: usize) -> Result<(), NoMemory>
        ensures slots { self.new.slots ≡ self.old.slots }
        ensures spare { self.old.spare ≤ self.new.spare }
        ensures ok { OnOk result (n ≤ self.new.spare) }
        ensures free { n ≤ self.old.spare → IsOk result }
    {
        self.slots.reserve(n)?;
        Ok(())
    }

    /// Adds a name, or changes its slot.
    pub(crate) fn add(&mut self, name: Name, slot: Slot)
        requires { 0 < self.old.spare }
        ensures slots { PutsSlot self.old.slots self.new.slots name (Some slot) }
        ensures spare { self.old.spare ≤ self.new.spare + 1 }
    {
        let Ok(_) = self.slots.insert(name, slot) else {
            unreachable!()
        };
    }

    /// Changes the slot of a name that is there.
    pub(crate) fn set(&mut self, name: Name, slot: Slot)
        requires { IsSome (slot_of self.old.slots name) }
        ensures slots { PutsSlot self.old.slots self.new.slots name (Some slot) }
        ensures spare { self.new.spare ≡ self.old.spare }
    {
        let Some(there) = self.slots.get_mut(&name) else {
            unreachable!()
        };
        *there = slot;
    }

    /// Takes a name out.
    pub(crate) fn remove(&mut self, name: Name)
        ensures slots { PutsSlot self.old.slots self.new.slots name None }
        ensures spare { self.old.spare ≤ self.new.spare }
    {
        self.slots.swap_remove(&name);
    }
}
