//! What a node keeps for references between bunches. It knows nothing of words and letters.
ghost use Rattle.std.specs.Prelude.{◌≡◌, ◌+◌, ◌^◌, ◌≤◌, ◌<◌, ◌&&◌, not, nat_le, [], slice_get, Some, OnOk, OnErr, IsTrue};
ghost use Rattle.bmx_inter.specs.Order.{IsInOrder, is_listed};
ghost use Rattle.bmx_inter.specs.Inter.{scion_pair};

use crate::order::{OfBunch, OfPair, is_listed, is_rising};
use crate::side::{Ends, Side};
use bmx_mark::Keeps;
use bmx_types::{BunchNo, Name, NoMemory, Pair, Pairs};
use std::alloc::Global;
use std::marker::Model;

/// What stands at a node for a reference from an object of one bunch to one of another, on the side
/// of the object that refers.
#[derive(Clone, Copy, Debug, PartialEq, Eq)]
pub struct Stub {
    pub source: Name,
    /// The bunch of the source.
    pub bunch: BunchNo,
    pub target: Name,
}

impl OfPair for Stub {
    ghost use Rattle.bmx_inter.specs.Inter.{stub_pair};

    ghost pair_of = { stub_pair };

    fn pair(&self) -> Pair {
        Pair {
            source: self.source,
            target: self.target,
        }
    }
}

impl OfBunch for Stub {
    ghost bunch_of = { λ s. s.bunch };

    fn bunch(&self) -> BunchNo {
        self.bunch
    }
}

/// What stands at a node for such a reference on the side of the target, which must stay while it
/// stands.
#[derive(Clone, Copy, Debug, PartialEq, Eq)]
pub struct Scion {
    pub target: Name,
    pub source: Name,
    /// The bunch of the source.
    pub bunch: BunchNo,
    /// The number of the node's step that last stored the reference.
    pub clock: u64,
}

impl OfPair for Scion {
    ghost use Rattle.bmx_inter.specs.Inter.{scion_pair};

    ghost pair_of = { scion_pair };

    fn pair(&self) -> Pair {
        Pair {
            source: self.source,
            target: self.target,
        }
    }
}

impl OfBunch for Scion {
    ghost bunch_of = { λ s. s.bunch };

    fn bunch(&self) -> BunchNo {
        self.bunch
    }
}

/// A collection, by what it keeps.
#[derive(Drop)]
struct Collection<'a, E> {
    keeps: &'a E,
}

impl<E: Keeps> Ends<Stub> for Collection<'_, E> {
    ghost is_sound = { λ _. Unit {0} };

    ghost is_over = { λ c s. not (E.is_kept c.keeps.now s.source && E.is_held c.keeps.now s.source s.target) };

    fn ends(&self, stub: &Stub) -> bool {
        !(self.keeps.kept(stub.source) && self.keeps.holds(stub.source, stub.target))
    }
}

/// A node's own table: the step in which it was made, the references that it lists, and whether they are
/// known to rise.
#[derive(Drop)]
struct Told<'a> {
    clock: u64,
    listed: &'a [Pair],
    rising: bool,
}

impl Ends<Scion> for Told<'_> {
    ghost is_sound = { λ t. IsTrue t.rising → IsInOrder (λ p. p) t.listed.now };

    ghost is_over = { λ t s. nat_le s.clock t.clock && not (is_listed t.listed.now (scion_pair s)) };

    fn ends(&self, scion: &Scion) -> bool {
        scion.clock <= self.clock && !is_listed(self.listed, self.rising, scion.pair())
    }
}

/// Stubs and scions, both by rising source and those of one source by rising target, at most one of
/// each for a source and a target. Contracts see the two lists, and `spare`: for how many more
/// references of any bunch there is room without memory.
#[derive(Drop)]
pub struct Inter {
    stubs: Side<Stub>,
    scions: Side<Scion>,
}

impl Model for Inter {
    ghost use Rattle.std.specs.Prelude.{min};
    ghost use Rattle.bmx_inter.specs.Inter.{Paired};

    ghost Value = { Paired };

    ghost view = { λ a. record { stubs = a.stubs.list; scions = a.scions.list; spare = min a.stubs.spare a.scions.spare } };
}

impl Inter {
    ghost use Rattle.bmx_inter.specs.Order.{IsInOrder, find_one};
    ghost use Rattle.bmx_types.specs.Updates.{put_at};
    ghost use Rattle.bmx_inter.specs.Inter.{stub_pair, scion_pair, stub_of, scion_of, stubs_with, scions_with, stubs_kept, scions_cleaned, stale_count};

    /// Neither stub nor scion, and no memory taken.
    pub fn new(alloc: Global) -> Inter
        ensures stubs { result.stubs ≡ [] }
        ensures scions { result.scions ≡ [] }
        ensures spare { result.spare ≡ 0 }
    {
        Inter {
            stubs: Side::new(alloc),
            scions: Side::new(alloc),
        }
    }

    /// Makes room for so many more references of any bunch: in the list of each bunch. Linear in how many more
    /// than there was room for, and in what stands where it must move it.
    pub fn reserve(&mut self, n: u32) -> Result<(), NoMemory>
        ensures stubs { self.new.stubs ≡ self.old.stubs }
        ensures scions { self.new.scions ≡ self.old.scions }
        ensures ok { OnOk result (n ≤ self.new.spare) }
        ensures err { OnErr result (self.new.spare < n) }
        ensures spare { self.old.spare ≤ self.new.spare }
    {
        self.stubs.reserve(n)?;
        self.scions.reserve(n)
    }

    /// Notes that the step of number `clock` stores a reference to the target in the source, an object
    /// of that bunch: its stub and its scion stand, of that bunch, the scion with that number. Where
    /// they stand already they are replaced, by a logarithmic search among what is of the bunch. What is new
    /// in the bunch moves those of it that stand behind, and is looked for in each other bunch, in logarithmic
    /// time; where it was in one those behind it move there.
    pub fn pair(&mut self, source: Name, bunch: BunchNo, target: Name, clock: u64)
        requires { 0 < self.old.spare }
        ensures stubs { self.new.stubs ≡ stubs_with source bunch target self.old.stubs }
        ensures scions { self.new.scions ≡ scions_with source bunch target clock self.old.scions }
        ensures stub { find_one stub_pair self.new.stubs ≡ put_at (find_one stub_pair self.old.stubs) source target (Some (stub_of source bunch target)) }
        ensures scion { find_one scion_pair self.new.scions ≡ put_at (find_one scion_pair self.old.scions) source target (Some (scion_of source bunch target clock)) }
        ensures spare { self.old.spare ≤ self.new.spare + 1 }
    {
        let stub = Stub {
            source,
            bunch,
            target,
        };
        let scion = Scion {
            target,
            source,
            bunch,
            clock,
        };
        self.stubs.put(stub);
        self.scions.put(scion);
    }

    /// What a collection of the bunch leaves of its stubs: those whose source is kept and has the
    /// target in its copy. Stubs of other bunches stay, and so do all scions. One pass over the stubs of that
    /// bunch, which looks at each and moves those behind the first that goes, each once.
    pub fn keep<E: Keeps>(&mut self, bunch: BunchNo, keeps: &E)
        ensures stubs { self.new.stubs ≡ stubs_kept bunch (E.is_kept keeps.now) (E.is_held keeps.now) self.old.stubs }
        ensures scions { self.new.scions ≡ self.old.scions }
        ensures spare { self.old.spare ≤ self.new.spare }
    {
        self.stubs.end(bunch, &Collection { keeps });
    }

    /// Ends scions by this node's own table of the bunch, which lists the references that have a stub,
    /// and was made in the step of number `clock`. Removes each scion of that bunch that isn't listed
    /// and whose own number is at most that one; stubs stay. Answers how many went. Looks once whether the
    /// list rises by source and then by target, then makes one pass over the scions of that bunch, with a search
    /// of the list for each that may go: logarithmic where the list rises, else linear. Those behind the first
    /// that goes are moved, each once.
    pub fn clean(&mut self, bunch: BunchNo, clock: u64, listed: &Pairs) -> u64
        ensures stubs { self.new.stubs ≡ self.old.stubs }
        ensures scions { self.new.scions ≡ scions_cleaned bunch clock listed.now self.old.scions }
        ensures count { result ≡ stale_count bunch clock listed.now self.old.scions }
        ensures small { result < 2 ^ 63 }
        ensures spare { self.old.spare ≤ self.new.spare }
    {
        let listed = listed.as_slice();
        let rising = is_rising(listed);
        let told = Told {
            clock,
            listed,
            rising,
        };
        self.scions.end(bunch, &told)
    }

    /// The i-th stub from 0, by rising source and then by rising target; None from their number on. A
    /// logarithmic search in each bunch, each step of which is one search in all of them.
    pub fn stub(&self, i: u64) -> Option<Stub>
        ensures value { result ≡ slice_get self.now.stubs i }
        ensures order { IsInOrder stub_pair self.now.stubs }
    {
        self.stubs.get(i)
    }

    /// The i-th scion from 0, by rising source and then by rising target; None from their number on. A
    /// logarithmic search in each bunch, each step of which is one search in all of them.
    pub fn scion(&self, i: u64) -> Option<Scion>
        ensures value { result ≡ slice_get self.now.scions i }
        ensures order { IsInOrder scion_pair self.now.scions }
    {
        self.scions.get(i)
    }
}

#[cfg(test)]
mod tests;
