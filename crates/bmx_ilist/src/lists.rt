//! Linked lists over the keys of one arena.
ghost use Rattle.std.specs.Prelude.{◌≡◌, ◌+◌, ◌≤◌, ◌<◌, length, replicate, [], IsTrue, IsFalse, IfSome, IfOk, OnOk, OnErr, IsOk};
ghost use Rattle.std.specs.FinSet as set;

use crate::errors::NoMemory;
use crate::seats::{Ends, Key, Seat, Seats, put, seat_of, set_next, set_previous};
use slab::Slab;
use std::alloc::Global;
use std::marker::Model;

/// Keys of an arena, each in at most one of a fixed number of doubly linked lists. Contracts see which
/// keys live, the keys of each list in order, and `spare`: how many more keys fit without memory.
#[derive(Drop)]
pub struct Lists {
    seats: Seats,
    ends: Vec<Ends>,
}

impl Model for Lists {
    ghost use Rattle.std.specs.Prelude.{◌-◌, length, map};
    ghost use Rattle.std.specs.FinSet as set;
    ghost use Rattle.std.specs.Coded.{coded_ℕ, coded_list, coded×, code_by};
    ghost use Rattle.slab.specs.Slab.{get, slab_len};
    ghost use Rattle.bmx_ilist.specs.Sequences.{Sequences, sequences_code};

    ghost Value = { Sequences };

    ghost coded = { sequences_code };

    ghost use Rattle.bmx_ilist.specs.Inside.Links.{walk, filled_from, Means, lists_in};

    ghost view = { λ a. record { live = set.from_list (filled_from 0 a.seats.slots); lists = lists_in a.seats a.ends.items; spare = a.seats.capacity - slab_len a.seats } };

    ghost invariant = { λ a. Means (get a.seats) a.ends.items (lists_in a.seats a.ends.items) };
}

impl Lists {
    ghost use Rattle.bmx_ilist.specs.Sequences.{keys_of, first_key, next_in, is_in_list, pushed, unlinked, popped, AreApart};

    /// So many empty lists, numbered from 0, and no key. Linear in `lists`.
    pub fn new(alloc: Global, lists: u32) -> Result<Lists, NoMemory>
        ensures lists { IfOk result (λ s. s.lists ≡ replicate lists []) }
        ensures live { IfOk result (λ s. s.live ≡ set.empty) }
        ensures spare { IfOk result (λ s. s.spare ≡ 0) }
    {
        let none = Ends {
            first: None,
            last: None,
        };
        Ok(Lists {
            seats: Slab::new(alloc),
            ends: Vec::from_elem(alloc, none, lists as usize)?,
        })
    }

    /// A new key, in no list. Takes constant time, but where it must move all keys to larger memory.
    pub fn add(&mut self) -> Result<Key, NoMemory>
        ensures lists { self.new.lists ≡ self.old.lists }
        ensures new { IfOk result (λ key. IsFalse (set.contains self.old.live key)) }
        ensures loose { IfOk result (λ key. IsFalse (is_in_list self.new.lists key)) }
        ensures live { IfOk result (λ key. self.new.live ≡ set.insert self.old.live key) }
        ensures spare { self.old.spare ≤ self.new.spare + 1 }
        ensures succeeds { 0 < self.old.spare → IsOk result }
        ensures err { OnErr result (self.new.live ≡ self.old.live) }
        ensures err_spare { OnErr result (self.old.spare ≤ self.new.spare) }
    {
        Ok(Key::from_index(self.seats.insert(None)?))
    }

    /// Makes room for at least so many more keys. Linear in the keys where it must move them.
    pub fn reserve(&mut self, n: u32) -> Result<(), NoMemory>
        ensures lists { self.new.lists ≡ self.old.lists }
        ensures live { self.new.live ≡ self.old.live }
        ensures spare { self.old.spare ≤ self.new.spare }
        ensures ok { OnOk result (n ≤ self.new.spare) }
        ensures succeeds { n ≤ self.old.spare → IsOk result }
    {
        let n = n as usize;
        if self.spare() < n {
            self.seats.reserve(n)?;
        }
        Ok(())
    }

    /// How many more keys fit.
    fn spare(&self) -> usize
        ensures { result ≡ self.now.spare }
    {
        self.seats.capacity() - self.seats.len()
    }

    /// A new key, in no list, for a caller that has reserved room. Takes constant time and no memory.
    pub fn add_reserved(&mut self) -> Key
        requires { 0 < self.old.spare }
        ensures lists { self.new.lists ≡ self.old.lists }
        ensures new { IsFalse (set.contains self.old.live result) }
        ensures loose { IsFalse (is_in_list self.new.lists result) }
        ensures live { self.new.live ≡ set.insert self.old.live result }
        ensures spare { self.new.spare + 1 ≡ self.old.spare }
    {
        Key::from_index(self.seats.insert_reserved(None))
    }

    /// Ends a key that is in no list. Takes constant time.
    pub fn remove(&mut self, key: Key)
        requires live { IsTrue (set.contains self.old.live key) }
        requires loose { IsFalse (is_in_list self.old.lists key) }
        ensures lists { self.new.lists ≡ self.old.lists }
        ensures live { self.new.live ≡ set.remove self.old.live key }
        ensures spare { self.new.spare ≡ self.old.spare + 1 }
    {
        let _seat = self.seats.remove(key.index());
    }

    /// Puts a key that is in no list at the end of one. Takes constant time.
    pub fn push_back(&mut self, list: u32, key: Key)
        requires list { list < length self.old.lists }
        requires live { IsTrue (set.contains self.old.live key) }
        requires loose { IsFalse (is_in_list self.old.lists key) }
        ensures lists { self.new.lists ≡ pushed list key self.old.lists }
        ensures live { self.new.live ≡ self.old.live }
        ensures spare { self.new.spare ≡ self.old.spare }
    {
        let at = list as usize;
        let ends = self.ends[at];
        let seat = Seat {
            list,
            previous: ends.last,
            next: None,
        };
        put(&mut self.seats, key, Some(seat));
        set_next(&mut self.seats, ends.last, Some(key));
        self.ends[at] = ends.pushed(key);
    }

    /// Takes a key out of its list. Takes constant time.
    pub fn unlink(&mut self, key: Key)
        requires { IsTrue (is_in_list self.old.lists key) }
        ensures lists { self.new.lists ≡ unlinked key self.old.lists }
        ensures live { self.new.live ≡ self.old.live }
        ensures lives { IsTrue (set.contains self.new.live key) }
        ensures spare { self.new.spare ≡ self.old.spare }
    {
        if let Some(seat) = seat_of(&self.seats, key) {
            let at = seat.list as usize;
            set_next(&mut self.seats, seat.previous, seat.next);
            set_previous(&mut self.seats, seat.next, seat.previous);
            put(&mut self.seats, key, None);
            self.ends[at] = self.ends[at].unlinked(seat);
        }
    }

    /// Takes a key out of its list and puts it at the end of one, which may be the same. Takes constant
    /// time.
    pub fn move_to(&mut self, list: u32, key: Key)
        requires list { list < length self.old.lists }
        requires linked { IsTrue (is_in_list self.old.lists key) }
        ensures lists { self.new.lists ≡ pushed list key (unlinked key self.old.lists) }
        ensures live { self.new.live ≡ self.old.live }
        ensures spare { self.new.spare ≡ self.old.spare }
    {
        self.unlink(key);
        self.push_back(list, key);
    }

    /// Takes the first key out of a list, None where that is empty. Takes constant time.
    pub fn pop_front(&mut self, list: u32) -> Option<Key>
        requires { list < length self.old.lists }
        ensures value { result ≡ first_key (keys_of self.old.lists list) }
        ensures lists { self.new.lists ≡ popped list self.old.lists }
        ensures lives { IfSome result (λ key. IsTrue (set.contains self.new.live key)) }
        ensures live { self.new.live ≡ self.old.live }
        ensures spare { self.new.spare ≡ self.old.spare }
    {
        let key = self.first(list)?;
        self.unlink(key);
        Some(key)
    }

    /// The first key of a list, None where that is empty. Takes constant time.
    pub fn first(&self, list: u32) -> Option<Key>
        requires { list < length self.now.lists }
        ensures value { result ≡ first_key (keys_of self.now.lists list) }
        ensures apart { AreApart self.now }
    {
        self.ends[list as usize].first
    }

    /// The key after this one in its list, None where it is last or in no list. Takes constant time.
    pub fn next(&self, key: Key) -> Option<Key>
        ensures value { result ≡ next_in self.now.lists key }
        ensures apart { AreApart self.now }
    {
        match seat_of(&self.seats, key) {
            Some(seat) => seat.next,
            None => None,
        }
    }
}

#[cfg(test)]
mod tests;
