//! Names in rising order, by binary search.
ghost use Rattle.std.specs.Prelude.{◌≡◌, ◌↔◌, ◌+◌, ◌<◌, ◌≤◌, [], length, slice_get, Contains, OnOk, OnErr, IfSome, IfNone, true, false};
ghost use Rattle.std.specs.List.Sorted.{IsStrictlyIncreasing};
ghost use Rattle.bmx_token.specs.Nodes.{nodes_with as names_with, nodes_without as names_without};

use bmx_types::{Name, NoMemory};
use std::alloc::Global;
use std::marker::Model;

/// Names in rising order, each once. Contracts see the list, and for how many more there is room.
#[derive(Drop)]
pub(crate) struct Servable {
    names: Vec<Name>,
}

impl Model for Servable {
    ghost use Rattle.std.specs.Prelude.{◌-◌, vec_len, vec_capacity};
    ghost use Rattle.std.specs.List.Sorted.{IsStrictlyIncreasing};
    ghost use Rattle.bmx_tokens.specs.Inside.Rooms.{Listed};

    ghost Value = { Listed };

    ghost view = { λ s. record { names = s.names.items; spare = vec_capacity s.names - vec_len s.names } };

    ghost invariant = { λ s. IsStrictlyIncreasing s.names.items };
}

impl Servable {
    /// No name. Takes no memory.
    pub(crate) fn new(alloc: Global) -> Servable
        ensures { result.names ≡ [] }
    {
        Servable {
            names: Vec::new(alloc),
        }
    }

    /// Makes room for one more name.
    pub(crate) fn reserve(&mut self) -> Result<(), NoMemory>
        ensures names { self.new.names ≡ self.old.names }
        ensures ok { OnOk result (0 < self.new.spare) }
    {
        self.names.reserve(1)?;
        Ok(())
    }

    /// The i-th name, None from their number on.
    pub(crate) fn get(&self, i: u64) -> Option<Name>
        ensures name { result ≡ slice_get self.now.names i }
        ensures rises { IsStrictlyIncreasing self.now.names }
    {
        let Ok(i) = usize::try_from(i) else {
            unreachable!()
        };
        self.names.get(i).copied()
    }

    /// How many names there are.
    pub(crate) fn len(&self) -> usize
        ensures { result ≡ length self.now.names }
    {
        self.names.len()
    }

    /// The name is listed from now on, or isn't. Searches in logarithmic time, and moves the names behind it.
    pub(crate) fn put(&mut self, name: Name, is_listed: bool)
        requires { 0 < self.old.spare }
        ensures listed { is_listed ≡ true → self.new.names ≡ names_with name self.old.names }
        ensures gone { is_listed ≡ false → self.new.names ≡ names_without name self.old.names }
    {
        let word = name.word();
        match self.names.binary_search_by_key(&word, |x| x.word()) {
            Ok(i) if !is_listed => {
                self.names.remove(i);
            }
            Err(i) if is_listed => {
                let inserted = self.names.insert(i, name).is_ok();
                prove!(inserted);
            }
            Ok(_) | Err(_) => {}
        }
    }
}
