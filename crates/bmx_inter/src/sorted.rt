//! Stubs or scions of one bunch, in order.
ghost use Rattle.std.specs.Prelude.{◌≡◌, ◌+◌, ◌^◌, ◌≤◌, ◌<◌, ◌==◌, false, [], not, filter, find, count_by, is_none, nat_lt, OnOk};
ghost use Rattle.bmx_inter.specs.Order.{IsInOrder, find_one, with_one, without_one};
ghost use Rattle.bmx_inter.specs.Inside.Sides.{count_ahead, rank_of, less};

use crate::order::{OfPair, search};
use crate::side::Ends;
use bmx_types::{NoMemory, Pair};
use std::alloc::Global;
use std::marker::Model;

/// Stubs or scions of one bunch, by rising source and those of one source by rising target, at most one for
/// each source and target. Contracts see the list, and `spare`: how many more can be kept without memory.
#[derive(Drop)]
pub(crate) struct Sorted<T: OfPair> {
    items: Vec<T>,
}

impl<T: OfPair> Model for Sorted<T> {
    ghost use Rattle.std.specs.Prelude.{◌-◌, vec_len, vec_capacity};
    ghost use Rattle.bmx_inter.specs.Order.{IsInOrder};
    ghost use Rattle.bmx_inter.specs.Inside.Sides.{Sided};

    ghost Value = { Sided T };

    ghost view = { λ a. record { list = a.items.items; spare = vec_capacity a.items - vec_len a.items } };

    ghost invariant = { λ a. IsInOrder T.pair_of a.items.items };
}

impl<T: OfPair + Copy + Drop> Sorted<T> {
    /// Nothing, and no memory taken.
    pub(crate) fn new(alloc: Global) -> Sorted<T>
        ensures { result.list ≡ [] }
    {
        Sorted {
            items: Vec::new(alloc),
        }
    }

    /// Makes room for so many more. Linear in what stands where it must move it.
    pub(crate) fn reserve(&mut self, n: usize) -> Result<(), NoMemory>
        ensures list { self.new.list ≡ self.old.list }
        ensures ok { OnOk result (n ≤ self.new.spare) }
        ensures spare { self.old.spare ≤ self.new.spare }
    {
        self.items.reserve(n)?;
        Ok(())
    }

    /// Puts one in its place, instead of the one of the same pair, and answers whether there was none. A
    /// logarithmic search; a new one moves those behind it.
    pub(crate) fn put(&mut self, item: T) -> bool
        requires { 0 < self.old.spare }
        ensures list { self.new.list ≡ with_one T.pair_of item self.old.list }
        ensures added { result ≡ is_none (find_one T.pair_of self.old.list (T.pair_of item).source (T.pair_of item).target) }
        ensures spare { self.old.spare ≤ self.new.spare + 1 }
        ensures in_place { result ≡ false → self.old.spare ≤ self.new.spare }
    {
        match search(self.items.as_slice(), item.pair()) {
            Ok(i) => {
                self.items[i] = item;
                false
            }
            Err(i) => {
                let inserted = self.items.insert(i, item).is_ok();
                prove!(inserted);
                true
            }
        }
    }

    /// Takes out the one of the pair, where there is one. A logarithmic search; what stands behind it moves.
    pub(crate) fn take_out(&mut self, pair: &Pair)
        ensures list { self.new.list ≡ without_one T.pair_of pair.now self.old.list }
        ensures spare { self.old.spare ≤ self.new.spare }
    {
        if let Ok(i) = search(self.items.as_slice(), *pair) {
            self.items.remove(i);
        }
    }

    /// Takes out what goes, in one pass, and answers how many went.
    pub(crate) fn end<E: Ends<T>>(&mut self, test: &E) -> u64
        requires { E.is_sound test.now }
        ensures list { self.new.list ≡ filter (λ x. not (E.is_over test.now x)) self.old.list }
        ensures count { result ≡ count_by (E.is_over test.now) self.old.list }
        ensures small { result < 2 ^ 63 }
        ensures spare { self.old.spare ≤ self.new.spare }
    {
        let before = self.items.len();
        self.items.retain(
            |x|
                requires { E.is_sound test.now }
            { !test.ends(x) },
        );
        (before - self.items.len()) as u64
    }

    /// How many stand before the pair. A logarithmic search.
    fn ahead(&self, pair: &Pair) -> u64
        ensures { result ≡ count_ahead T.pair_of pair.now self.now.list }
    {
        match search(self.items.as_slice(), *pair) {
            Ok(i) | Err(i) => i as u64,
        }
    }

    /// The one before which just `i` of all stand. A logarithmic search, which searches all for each that it
    /// looks at.
    pub(crate) fn ranked(&self, all: &[Sorted<T>], i: u64) -> Option<T>
        ensures { result ≡ find (λ x. rank_of T.pair_of (T.pair_of x) all.now == i) self.now.list }
    {
        let at = self.items.partition_point(|x| is_before(all, &x.pair(), i));
        match self.items.get(at) {
            Some(x) if is_at(all, &x.pair(), i) => Some(*x),
            _ => None,
        }
    }
}

/// Whether fewer than `i` stand before the pair.
fn is_before<T: OfPair + Copy + Drop>(all: &[Sorted<T>], pair: &Pair, i: u64) -> bool
    ensures { result ≡ nat_lt (rank_of T.pair_of pair.now all.now) i }
{
    left_of(all, pair, i).is_some_and(|left| left > 0)
}

/// Whether just `i` do.
fn is_at<T: OfPair + Copy + Drop>(all: &[Sorted<T>], pair: &Pair, i: u64) -> bool
    ensures { result ≡ (rank_of T.pair_of pair.now all.now == i) }
{
    left_of(all, pair, i) == Some(0)
}

/// How many of `i` are left without those that stand before the pair; None where more than `i` do.
fn left_of<T: OfPair + Copy + Drop>(all: &[Sorted<T>], pair: &Pair, i: u64) -> Option<u64>
    ensures { result ≡ less (rank_of T.pair_of pair.now all.now) i }
{
    let mut left = i;
    for sorted in all {
        left = left.checked_sub(sorted.ahead(pair))?;
    }
    Some(left)
}
