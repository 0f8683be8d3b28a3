//! The names that a collection has marked so far, and its next step. It sees objects through their edges alone.
ghost use Rattle.std.specs.Prelude.{◌≡◌, ℕ, ◌+◌, ◌-◌, ◌^◌, ◌<◌, ◌≤◌, ◌↔◌, List, [], ◌∷◌, ◌++◌, Option, length, drop, take, max, slice_set, IsTrue, IsFalse, IsSome, IsOk, IfOk, OnOk, OnErr};
ghost use Rattle.bmx_mark.specs.Marks.{Marking, names_in, keys_in, is_marked, key_of, next_grey, AreNewTargets, Greys, Scans, AreApart, AreListed};
ghost use Rattle.bmx_mark.specs.Reach.{IsReached, IsBetween};
ghost use Rattle.bmx_ilist.specs.Sequences.{keys_of};

use crate::edges::Edges;
use crate::fields::{least_above, targets_of};
use bmx_ilist::{Key, Lists};
use bmx_types::{BunchNo, Name, NoMemory};
use indexmap::IndexMap;
use std::alloc::Global;
use std::marker::Model;

/// The list of the keys of grey names.
const GREY: u32 = 0;

/// The list of the keys of the other marked names.
const SCANNED: u32 = 1;

/// Which names a collection has marked. A marked name is grey until its own targets were looked at, which
/// happens in the order in which names became grey. Each marked name has a key: the keys of grey names are
/// on list 0 and those of all others on list 1. Contracts see the names of both lists with their keys, in
/// order, and `spare`: how many more names can be marked without memory. A name is found in expected
/// constant time.
#[derive(Drop)]
pub struct Mark {
    lists: Lists,
    /// The key of each marked name, in the order in which they became grey, so that those whose targets
    /// were looked at come first.
    keys: IndexMap<Name, Key>,
    /// How many names aren't grey any more.
    scanned: usize,
    spare: u32,
}

impl Model for Mark {
    ghost use Rattle.std.specs.Prelude.{take, drop};
    ghost use Rattle.bmx_mark.specs.Marks.{Marking};
    ghost use Rattle.bmx_mark.specs.Inside.Marks.{IsMark};
    ghost use Rattle.indexmap.specs.IndexMap.{spare as spare_of};

    ghost Value = { Marking };

    ghost view = { λ a. record { grey = drop a.scanned a.keys.entries; scanned = take a.scanned a.keys.entries; spare = a.spare } };

    ghost invariant = { λ a. IsMark a.lists a.keys.entries (spare_of a.keys) a.scanned a.spare };
}

impl Mark {
    /// No name is marked.
    pub fn new(alloc: Global) -> Result<Mark, NoMemory>
        ensures { IfOk result (λ m. m ≡ record { grey = []; scanned = []; spare = 0 }) }
    {
        let Ok(lists) = Lists::new(alloc, 2) else {
            return Err(NoMemory);
        };
        Ok(Mark {
            lists,
            keys: IndexMap::new(alloc),
            scanned: 0,
            spare: 0,
        })
    }

    /// Makes `spare` at least n. Linear in the marked names where it must move them.
    pub fn reserve(&mut self, n: u32) -> Result<(), NoMemory>
        ensures ok { OnOk result (self.new ≡ record self.old { spare = max self.old.spare n }) }
        ensures err { OnErr result (self.new ≡ self.old) }
        ensures succeeds { n ≤ self.old.spare → IsOk result }
    {
        if n <= self.spare {
            return Ok(());
        }
        let Ok(()) = self.lists.reserve(n) else {
            return Err(NoMemory);
        };
        self.keys.reserve(n as usize)?;
        self.spare = n;
        Ok(())
    }

    /// Begins the mark of a bunch: its roots are grey, by rising name, and no other name is marked. It finds
    /// the memory where at least as many names can be marked as there are roots. Linear in the names that
    /// were marked and in the roots.
    pub fn begin<E: Edges>(&mut self, edges: &E, bunch: BunchNo) -> Result<(), NoMemory>
        ensures grey { OnOk result (names_in self.new.grey ≡ E.roots edges.now bunch) }
        ensures scanned { OnOk result (self.new.scanned ≡ []) }
        ensures spare { OnOk result (self.new.spare ≡ self.old.spare - length (E.roots edges.now bunch)) }
        ensures between { OnOk result (IsBetween (E.roots edges.now bunch) (E.target_of edges.now) self.new) }
        ensures err { OnErr result (self.new ≡ self.old) }
        ensures succeeds { length (E.roots edges.now bunch) ≤ self.old.spare → IsOk result }
    {
        let spare = self.spare;
        let roots = count_roots(edges, bunch)?;
        if roots > spare {
            self.reserve(roots)?;
        }
        self.clear();
        for i in 0..roots {
            let Some(root) = edges.root(bunch, i as u64) else {
                unreachable!()
            };
            self.grey(root);
        }
        Ok(())
    }

    /// No name is marked any more. Linear in those that were.
    fn clear(&mut self)
        ensures { self.new ≡ record self.old { grey = []; scanned = [] } }
    {
        end_keys(&mut self.lists, GREY);
        end_keys(&mut self.lists, SCANNED);
        self.keys.clear();
        self.scanned = 0;
    }

    /// Marks a name, which is then grey behind all others. One that is marked stays as it is.
    pub fn grey(&mut self, name: Name)
        requires { IsFalse (is_marked self.old name) → 0 < self.old.spare }
        ensures marked { IsTrue (is_marked self.old name) → self.new ≡ self.old }
        ensures new { IsFalse (is_marked self.old name) → Greys name self.old self.new }
        ensures between { (roots : List ℕ) (target : ℕ → ℕ → Option ℕ) → IsReached roots target name → IsBetween roots target self.old → IsBetween roots target self.new }
    {
        if self.keys.contains_key(&name) {
            return;
        }
        let key = self.lists.add_reserved();
        self.lists.push_back(GREY, key);
        let Ok(_) = self.keys.insert(name, key) else {
            unreachable!()
        };
        self.spare -= 1;
    }

    /// Looks at the targets of the name that has been grey longest, which is grey no more. Those that weren't
    /// marked become grey, by rising name. One call of `target` for each of 32 fields, and time linear in
    /// 32 for each target.
    pub fn step<E: Edges>(&mut self, edges: &E)
        requires grey { 0 < length self.old.grey }
        requires room { (names : List ℕ) → AreNewTargets (E.target_of edges.now) self.old (next_grey self.old) names → length names ≤ self.old.spare }
        ensures scans { Scans (E.target_of edges.now) self.old self.new }
        ensures between { (roots : List ℕ) → IsBetween roots (E.target_of edges.now) self.old → IsBetween roots (E.target_of edges.now) self.new }
    {
        let name = self.scan_next();
        let targets = targets_of(edges, name);
        let mut floor = None;
        while let Some(target) = least_above(&targets, floor) {
            self.grey(target);
            floor = Some(target.word());
        }
    }

    /// Takes the name that has been grey longest out of the grey ones.
    fn scan_next(&mut self) -> Name
        requires { 0 < length self.old.grey }
        ensures value { result ≡ next_grey self.old }
        ensures marking { self.new ≡ record self.old { grey = drop 1 self.old.grey; scanned = self.old.scanned ++ take 1 self.old.grey } }
    {
        prove!(self.scanned < self.keys.len());
        let Some((name, key)) = self.keys.get_index(self.scanned) else {
            unreachable!()
        };
        let (name, key) = (*name, *key);
        self.lists.move_to(SCANNED, key);
        self.scanned += 1;
        name
    }

    /// Whether no name is grey. The marked names are then exactly those that the roots reach.
    pub fn is_done(&self) -> bool
        ensures done { IsTrue result ↔ (self.now.grey ≡ []) }
        ensures least { IsTrue result → (roots : List ℕ) (target : ℕ → ℕ → Option ℕ) → IsBetween roots target self.now → (x : ℕ) → IsTrue (is_marked self.now x) ↔ IsReached roots target x }
    {
        self.lists.first(GREY).is_none()
    }

    /// Whether a name is marked.
    pub fn is_kept(&self, name: Name) -> bool
        ensures { result ≡ is_marked self.now name }
    {
        self.keys.contains_key(&name)
    }

    /// The keys of the grey names on list 0, and those of all other marked names on list 1, in order. No other
    /// key lives.
    pub fn lists(&self) -> &Lists
        ensures lists { result.now.lists ≡ keys_in self.now.grey ∷ keys_in self.now.scanned ∷ [] }
        ensures live { AreListed result.now }
    {
        &self.lists
    }

    /// The key of a name, None where it isn't marked.
    pub fn key(&self, name: Name) -> Option<Key>
        ensures value { result ≡ key_of self.now name }
        ensures some { IsSome result ↔ IsTrue (is_marked self.now name) }
        ensures apart { AreApart self.now }
    {
        self.keys.get(&name).copied()
    }
}

/// How many roots a bunch has. More than fit a u32 find no memory.
fn count_roots<E: Edges>(edges: &E, bunch: BunchNo) -> Result<u32, NoMemory>
    ensures ok { IfOk result (λ n. n ≡ length (E.roots edges.now bunch)) }
    ensures few { length (E.roots edges.now bunch) < 2 ^ 32 → IsOk result }
{
    let mut n = 0u32;
    while edges.root(bunch, n as u64).is_some() {
        let Some(more) = n.checked_add(1) else {
            return Err(NoMemory);
        };
        n = more;
    }
    Ok(n)
}

/// Ends each key of a list.
fn end_keys(lists: &mut Lists, list: u32)
    requires { list < length lists.old.lists }
    ensures emptied { keys_of lists.new.lists list ≡ [] }
    ensures others { (other : ℕ) → keys_of lists.old.lists other ≡ [] → keys_of lists.new.lists other ≡ [] }
    ensures len { length lists.new.lists ≡ length lists.old.lists }
    ensures spare { lists.old.spare ≤ lists.new.spare }
    ensures listed { AreListed lists.old → AreListed lists.new }
{
    while let Some(key) = lists.first(list) {
        lists.unlink(key);
        lists.remove(key);
    }
}

#[cfg(test)]
mod tests;
