//! Which names a graph reaches.
ghost use Rattle.std.specs.Prelude.{◌≡◌, ◌↔◌, ℕ, List, [], ◌∷◌, OnOk, IfOk, Contains, slice_get};
ghost use Rattle.std.specs.List.Sorted.{IsStrictlyIncreasing};
ghost use Rattle.bmx_graph.specs.Inside.Walks.{IsWalk, GoesTo};

use bmx_types::{Items, Name, Names, NoMemory, Val};
use std::alloc::Global;
use std::collections::BTreeSet;

/// The names that a walk over a graph has found, each once.
#[derive(Drop)]
pub struct Walk {
    /// In the order in which they were found.
    found: Vec<Name>,
    seen: BTreeSet<Name>,
}

impl Walk {
    /// A walk that has found nothing.
    pub fn new(alloc: Global) -> Walk
        ensures walk { IsWalk result }
        ensures empty { result.found.items ≡ [] }
    {
        Walk {
            found: Vec::new(alloc),
            seen: BTreeSet::new(alloc),
        }
    }

    /// The name found as the i-th, from 0.
    pub fn get(&self, i: usize) -> Option<Name>
        ensures { result ≡ slice_get self.now.found.items i }
    {
        self.found.get(i).copied()
    }

    /// Finds the name that a value refers to.
    pub fn find(&mut self, value: Val) -> Result<(), NoMemory>
        requires { IsWalk self.old }
        ensures { OnOk result (GoesTo (value ∷ []) self.old self.new) }
    {
        if let Val::Ref(name) = value {
            if self.seen.insert(name)? {
                self.found.push(name)?;
            }
        }
        Ok(())
    }

    /// Finds the names that values refer to.
    pub fn find_all(&mut self, values: &[Val]) -> Result<(), NoMemory>
        requires { IsWalk self.old }
        ensures { OnOk result (GoesTo values.now self.old self.new) }
    {
        for value in values {
            self.find(*value)?;
        }
        Ok(())
    }

    /// The names found, rising.
    pub fn into_names(self, alloc: Global) -> Result<Names, NoMemory>
        requires { IsWalk self }
        ensures rising { IfOk result (λ names. IsStrictlyIncreasing names) }
        ensures same { IfOk result (λ names. (x : ℕ) → Contains names x ↔ Contains self.found.items x) }
    {
        let Walk { seen, .. } = self;
        Ok(Items::from_vec(seen.into_iter().collect(alloc)?))
    }
}
