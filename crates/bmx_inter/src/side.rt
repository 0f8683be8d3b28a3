//! Stubs or scions of a node, those of each bunch by themselves.
ghost use Rattle.std.specs.Prelude.{◌≡◌, ◌≢◌, ℕ, ◌+◌, ◌^◌, ◌≤◌, ◌<◌, Bool, [], length, not, filter, count_by, slice_get, slice_index_or, All, IfOk, OnOk, OnErr};
ghost use Rattle.bmx_inter.specs.Order.{IsInOrder, with_one, without_one};
ghost use Rattle.bmx_inter.specs.Inside.Sides.{Sided, IsBegun, is_ended_in};

use crate::order::OfBunch;
use crate::sorted::Sorted;
use bmx_types::{BunchNo, NoMemory, Pair};
use std::alloc::Global;
use std::marker::Model;

/// How many bunches a store has.
const BUNCHES: usize = 16;

/// What says of stubs or scions of a bunch which of them go.
pub(crate) trait Ends<T> {
    // What it needs to say so.
    ghost is_sound: { Self → Type 0 };

    // Those that go.
    ghost is_over: { Self → T → Bool };

    /// Whether this one goes.
    fn ends(&self, item: &T) -> bool
        requires { is_sound self.now }
        ensures { result ≡ is_over self.now item.now };
}

/// The stubs of a node or its scions, by rising source and those of one source by rising target, at most
/// one of each for a source and a target. Contracts see the list, and `spare`: how many more of any bunch can
/// be kept without memory.
#[derive(Drop)]
pub(crate) struct Side<T: OfBunch> {
    /// What is of each bunch. There is none before room was made.
    bunches: Vec<Sorted<T>>,
    /// For how many more of each bunch there is room.
    room: usize,
}

impl<T: OfBunch> Model for Side<T> {
    ghost use Rattle.bmx_inter.specs.Inside.Sides.{Sided, Kept, merged};

    ghost Value = { Sided T };

    ghost view = { λ a. record { list = merged T.pair_of a.bunches.items; spare = a.room } };

    ghost invariant = { λ a. Kept T.pair_of T.bunch_of a.bunches.items a.room };
}

impl<T: OfBunch + Copy + Drop> Side<T> {
    /// Nothing, and no memory taken.
    pub(crate) fn new(alloc: Global) -> Side<T>
        ensures list { result.list ≡ [] }
        ensures spare { result.spare ≡ 0 }
    {
        Side {
            bunches: Vec::new(alloc),
            room: 0,
        }
    }

    /// Makes room for so many more of each bunch. Linear in how many more than there was room for, and in
    /// what stands where it must move it.
    pub(crate) fn reserve(&mut self, n: u32) -> Result<(), NoMemory>
        ensures list { self.new.list ≡ self.old.list }
        ensures ok { OnOk result (n ≤ self.new.spare) }
        ensures err { OnErr result (self.new.spare < n) }
        ensures spare { self.old.spare ≤ self.new.spare }
    {
        let n = n as usize;
        if n > self.room {
            begin(&mut self.bunches)?;
            reserve_each(&mut self.bunches, n)?;
            self.room = n;
        }
        Ok(())
    }

    /// Puts one in its place, instead of the one of the same pair. A logarithmic search among what is of its
    /// bunch; a new one moves those behind it there, and is looked for in each other bunch, where those
    /// behind it move if it was there.
    pub(crate) fn put(&mut self, item: T)
        requires { 0 < self.old.spare }
        ensures list { self.new.list ≡ with_one T.pair_of item self.old.list }
        ensures spare { self.old.spare ≤ self.new.spare + 1 }
    {
        let bunch = item.bunch().get() as usize;
        if self.bunches[bunch].put(item) {
            self.room -= 1;
            take_out_elsewhere(&mut self.bunches, bunch, &item.pair());
        }
    }

    /// Takes out what is of the bunch and goes, and answers how many went. One pass over what is of that
    /// bunch, which looks at each and moves those behind the first that goes, each once.
    pub(crate) fn end<E: Ends<T>>(&mut self, bunch: BunchNo, test: &E) -> u64
        requires { E.is_sound test.now }
        ensures list { self.new.list ≡ filter (λ x. not (is_ended_in T.bunch_of bunch (E.is_over test.now) x)) self.old.list }
        ensures count { result ≡ count_by (is_ended_in T.bunch_of bunch (E.is_over test.now)) self.old.list }
        ensures small { result < 2 ^ 63 }
        ensures spare { self.old.spare ≤ self.new.spare }
    {
        let bunch = bunch.get() as usize;
        if bunch < self.bunches.len() {
            self.bunches[bunch].end(test)
        } else {
            0
        }
    }

    /// The i-th from 0, by rising source and then by rising target; None from their number on. A logarithmic
    /// search in each bunch, each step of which is one search in all of them.
    pub(crate) fn get(&self, i: u64) -> Option<T>
        ensures value { result ≡ slice_get self.now.list i }
        ensures order { IsInOrder T.pair_of self.now.list }
    {
        let all = self.bunches.as_slice();
        for sorted in all {
            let found = sorted.ranked(all, i);
            if found.is_some() {
                return found;
            }
        }
        None
    }
}

/// Nothing of any bunch.
fn made<T: OfBunch + Copy + Drop>(alloc: Global) -> Result<Vec<Sorted<T>>, NoMemory>
    ensures { IfOk result (λ v. (length v.items ≡ 16) × All (λ s. s.list ≡ []) v.items) }
{
    let mut bunches = Vec::with_capacity(alloc, BUNCHES)?;
    for _ in 0..BUNCHES {
        bunches.push(Sorted::new(alloc))?;
    }
    Ok(bunches)
}

/// Makes the lists of the bunches, where there is none yet.
fn begin<T: OfBunch + Copy + Drop>(bunches: &mut Vec<Sorted<T>>) -> Result<(), NoMemory>
    ensures ok { OnOk result (IsBegun bunches.old.items bunches.new.items) }
    ensures err { OnErr result (bunches.new.items ≡ bunches.old.items) }
{
    if !bunches.is_empty() {
        return Ok(());
    }
    *bunches = made(*bunches.allocator())?;
    Ok(())
}

/// Makes room for so many more of each bunch.
fn reserve_each<T: OfBunch + Copy + Drop>(
    bunches: &mut Vec<Sorted<T>>,
    n: usize,
) -> Result<(), NoMemory>
    ensures count { length bunches.new.items ≡ length bunches.old.items }
    ensures lists { (b : ℕ) (d : Sided T) → (slice_index_or bunches.new.items b d).list ≡ (slice_index_or bunches.old.items b d).list }
    ensures ok { OnOk result (All (λ s. n ≤ s.spare) bunches.new.items) }
    ensures spare { (room : ℕ) → All (λ s. room ≤ s.spare) bunches.old.items → All (λ s. room ≤ s.spare) bunches.new.items }
{
    for b in 0..bunches.len() {
        bunches[b].reserve(n)?;
    }
    Ok(())
}

/// Takes the one of the pair out of every bunch but this one.
fn take_out_elsewhere<T: OfBunch + Copy + Drop>(
    bunches: &mut Vec<Sorted<T>>,
    bunch: usize,
    pair: &Pair,
)
    ensures here { (d : Sided T) → slice_index_or bunches.new.items bunch d ≡ slice_index_or bunches.old.items bunch d }
    ensures elsewhere { (b : ℕ) (d : Sided T) → b < length bunches.old.items → b ≢ bunch → (slice_index_or bunches.new.items b d).list ≡ without_one T.pair_of pair.now (slice_index_or bunches.old.items b d).list }
    ensures count { length bunches.new.items ≡ length bunches.old.items }
    ensures spare { (room : ℕ) → All (λ s. room ≤ s.spare) bunches.old.items → All (λ s. room ≤ s.spare) bunches.new.items }
{
    for b in 0..bunches.len() {
        if b != bunch {
            bunches[b].take_out(pair);
        }
    }
}
