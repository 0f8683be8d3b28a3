//! Items under keys, on numbered lists.
ghost use Rattle.std.specs.Prelude.{◌≡◌, ◌≢◌, ℕ, ◌+◌, ◌^◌, ◌≤◌, ◌<◌, [], ◌∷◌, ◌++◌, length, take, drop, slice_get, IfOk, OnOk, OnErr, Some, None, IsOk};
ghost use Rattle.bmx_ilist.specs.Sequences.{is_in_list, pushed};
ghost use Rattle.bmx_shelves.specs.Shelves.{on_shelf};

use bmx_ilist::{Key, Lists};
use bmx_types::NoMemory;
use indexmap::IndexMap;
use std::alloc::Global;
use std::marker::Model;

/// Items on shelves, which are numbered from 0. Contracts see the items of each shelf, first to last,
/// and `spare`: how many more items there is room for.
#[derive(Drop)]
pub struct Shelves<T> {
    /// A list of keys for each shelf, and behind them one of the keys in reserve.
    lists: Lists,
    /// The item of each key, None for a key in reserve.
    items: IndexMap<Key, Option<T>>,
    /// How many shelves there are.
    count: u32,
}

impl<T> Model for Shelves<T> {
    ghost use Rattle.std.specs.Prelude.{length};
    ghost use Rattle.bmx_ilist.specs.Sequences.{keys_of};
    ghost use Rattle.bmx_shelves.specs.Shelves.{Shelved};
    ghost use Rattle.bmx_shelves.specs.Inside.Keyed.{found, shelves_in, Sound};

    ghost Value = { Shelved T };

    ghost view = { λ a. record { shelves = shelves_in (found a.items.entries) a.lists.lists a.count; spare = length (keys_of a.lists.lists a.count) } };

    ghost invariant = { λ a. Sound (found a.items.entries) a.lists.lists a.count };
}

impl<T: Copy> Shelves<T> {
    /// So many empty shelves, with no room. Linear in their number.
    pub fn new(alloc: Global, count: u32) -> Result<Shelves<T>, NoMemory>
        requires { count < 2 ^ 16 }
        ensures count { IfOk result (λ s. length s.shelves ≡ count) }
        ensures empty { IfOk result (λ s. (m : ℕ) → on_shelf s.shelves m ≡ []) }
        ensures spare { IfOk result (λ s. s.spare ≡ 0) }
    {
        let Ok(lists) = Lists::new(alloc, count + 1) else {
            return Err(NoMemory);
        };
        Ok(Shelves {
            lists,
            items: IndexMap::new(alloc),
            count,
        })
    }

    /// Makes room for so many items more than now. Linear in their number, and in the items where it
    /// must move them.
    pub fn make_room(&mut self, more: u32) -> Result<(), NoMemory>
        ensures count { length self.new.shelves ≡ length self.old.shelves }
        ensures items { (m : ℕ) → on_shelf self.new.shelves m ≡ on_shelf self.old.shelves m }
        ensures ok { OnOk result (self.new.spare ≡ self.old.spare + more) }
        ensures err { OnErr result (self.new.spare ≡ self.old.spare) }
    {
        if self.lists.reserve(more).is_err() || self.items.reserve(more as usize).is_err() {
            return Err(NoMemory);
        }
        for _made in 0..more {
            let key = self.lists.add_reserved();
            put(&mut self.items, key, None);
            self.lists.push_back(self.count, key);
        }
        Ok(())
    }

    /// Puts an item at the end of a shelf.
    pub fn push(&mut self, shelf: u32, item: T)
        requires shelf { shelf < length self.old.shelves }
        requires room { 0 < self.old.spare }
        ensures count { length self.new.shelves ≡ length self.old.shelves }
        ensures shelf { on_shelf self.new.shelves shelf ≡ on_shelf self.old.shelves shelf ++ item ∷ [] }
        ensures others { (m : ℕ) → m ≢ shelf → on_shelf self.new.shelves m ≡ on_shelf self.old.shelves m }
        ensures spare { self.new.spare + 1 ≡ self.old.spare }
    {
        let Some(key) = self.lists.first(self.count) else {
            unreachable!()
        };
        put(&mut self.items, key, Some(item));
        self.lists.move_to(shelf, key);
    }

    /// The first item of a shelf, None where that is empty.
    pub fn front(&self, shelf: u32) -> Option<T>
        requires { shelf < length self.now.shelves }
        ensures { result ≡ slice_get (on_shelf self.now.shelves shelf) 0 }
    {
        let key = self.lists.first(shelf)?;
        let Some(item) = self.items.get(&key) else {
            unreachable!()
        };
        *item
    }

    /// Takes the first item of a shelf off.
    pub fn drop_front(&mut self, shelf: u32)
        requires shelf { shelf < length self.old.shelves }
        requires item { 0 < length (on_shelf self.old.shelves shelf) }
        ensures count { length self.new.shelves ≡ length self.old.shelves }
        ensures shelf { on_shelf self.new.shelves shelf ≡ drop 1 (on_shelf self.old.shelves shelf) }
        ensures others { (m : ℕ) → m ≢ shelf → on_shelf self.new.shelves m ≡ on_shelf self.old.shelves m }
        ensures spare { self.new.spare ≡ self.old.spare + 1 }
    {
        let Some(key) = self.lists.first(shelf) else {
            unreachable!()
        };
        put(&mut self.items, key, None);
        self.lists.move_to(self.count, key);
    }

    /// Puts the first item of a shelf at the end of another.
    pub fn move_front(&mut self, from: u32, to: u32)
        requires from { from < length self.old.shelves }
        requires to { to < length self.old.shelves }
        requires apart { from ≢ to }
        requires item { 0 < length (on_shelf self.old.shelves from) }
        ensures count { length self.new.shelves ≡ length self.old.shelves }
        ensures from { on_shelf self.new.shelves from ≡ drop 1 (on_shelf self.old.shelves from) }
        ensures to { on_shelf self.new.shelves to ≡ on_shelf self.old.shelves to ++ take 1 (on_shelf self.old.shelves from) }
        ensures others { (m : ℕ) → m ≢ from → m ≢ to → on_shelf self.new.shelves m ≡ on_shelf self.old.shelves m }
        ensures spare { self.new.spare ≡ self.old.spare }
    {
        let Some(key) = self.lists.first(from) else {
            unreachable!()
        };
        self.lists.move_to(to, key);
    }
}

ghost use Rattle.indexmap.specs.IndexMap.{IndexMap, spare};
ghost use Rattle.bmx_shelves.specs.Inside.Keyed.{found, IsPresent};

/// Gives a key its item, or none. The key has had one or none before, or there is room for it.
fn put<T: Copy>(items: &mut IndexMap<Key, Option<T>>, key: Key, item: Option<T>)
    requires { IsPresent (found items.old.entries) key (spare items.old) }
    ensures here { found items.new.entries key ≡ Some item }
    ensures others { (q : ℕ) → q ≢ key → found items.new.entries q ≡ found items.old.entries q }
    ensures spare { spare items.old ≤ spare items.new + 1 }
{
    let Ok(_) = items.insert(key, item) else {
        unreachable!()
    };
}

#[cfg(test)]
mod tests;
