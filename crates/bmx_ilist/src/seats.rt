//! Keys, and where each stands in a list.
ghost use Rattle.std.specs.Prelude.{◌≡◌, ◌≢◌, ℕ, ◌<◌, length, Some, slice_set, slice_index};
ghost use Rattle.slab.specs.Slab.{get, slab_len, ContainsKey};

use slab::Slab;
use std::marker::Model;

/// A key of an arena: lists link keys, and what belongs to a key is kept beside the lists under it. A
/// key that was removed may be given out again. Contracts see its number.
#[derive(Clone, Copy, Debug, PartialEq, Eq, Hash)]
pub struct Key {
    index: usize,
}

impl Model for Key {
    ghost use Rattle.std.specs.Prelude.{ℕ};

    ghost Value = { ℕ };

    ghost view = { λ k. k.index };

    ghost inverse = { λ n. record { index = n } };
}

impl Key {
    /// The key of that number.
    pub(crate) fn from_index(index: usize) -> Key
        ensures { result ≡ index }
    {
        Key { index }
    }

    /// Its number.
    pub(crate) fn index(self) -> usize
        ensures { result ≡ self }
    {
        self.index
    }
}

/// Where a key stands: in which list, and between which keys.
#[derive(Clone, Copy)]
pub(crate) struct Seat {
    pub(crate) list: u32,
    pub(crate) previous: Option<Key>,
    pub(crate) next: Option<Key>,
}

/// The first and the last key of a list, None where it is empty.
#[derive(Clone, Copy)]
pub(crate) struct Ends {
    pub(crate) first: Option<Key>,
    pub(crate) last: Option<Key>,
}

/// What each live key has: its seat, None where it is in no list.
pub(crate) type Seats = Slab<Option<Seat>>;

ghost use Rattle.bmx_ilist.specs.Inside.Links.{SameRoom, seat_found, next_put, previous_put};

/// The seat of a key, None where it is in no list or doesn't live.
pub(crate) fn seat_of(seats: &Seats, key: Key) -> Option<Seat>
    ensures { result ≡ seat_found (get seats.now key) }
{
    match seats.get(key.index()).copied() {
        Some(seat) => seat,
        None => None,
    }
}

/// Gives a live key this seat, or none.
pub(crate) fn put(seats: &mut Seats, key: Key, seat: Option<Seat>)
    requires { ContainsKey seats.old key }
    ensures changed { get seats.new key ≡ Some seat }
    ensures others { (other : ℕ) → other ≢ key → get seats.new other ≡ get seats.old other }
    ensures room { SameRoom seats.old seats.new }
{
    seats[key.index()] = seat;
}

/// Makes `next` the key after this one, if there is one and it is in a list.
pub(crate) fn set_next(seats: &mut Seats, key: Option<Key>, next: Option<Key>)
    ensures seats { (q : ℕ) → get seats.new q ≡ next_put key next q (get seats.old q) }
    ensures room { SameRoom seats.old seats.new }
{
    if let Some(key) = key {
        if let Some(seat) = seat_of(seats, key) {
            put(seats, key, Some(Seat { next, ..seat }));
        }
    }
}

/// Makes `previous` the key before this one, if there is one and it is in a list.
pub(crate) fn set_previous(seats: &mut Seats, key: Option<Key>, previous: Option<Key>)
    ensures seats { (q : ℕ) → get seats.new q ≡ previous_put key previous q (get seats.old q) }
    ensures room { SameRoom seats.old seats.new }
{
    if let Some(key) = key {
        if let Some(seat) = seat_of(seats, key) {
            put(seats, key, Some(Seat { previous, ..seat }));
        }
    }
}

impl Ends {
    ghost use Rattle.bmx_ilist.specs.Inside.Links.{ends_pushed, ends_unlinked};

    /// The ends once this key stands behind all.
    pub(crate) fn pushed(self, key: Key) -> Ends
        ensures { result ≡ ends_pushed key self }
    {
        Ends {
            first: self.first.or(Some(key)),
            last: Some(key),
        }
    }

    /// The ends once the key of that seat is taken out.
    pub(crate) fn unlinked(self, seat: Seat) -> Ends
        ensures { result ≡ ends_unlinked seat.previous seat.next self }
    {
        Ends {
            first: if seat.previous.is_some() {
                self.first
            } else {
                seat.next
            },
            last: if seat.next.is_some() {
                self.last
            } else {
                seat.previous
            },
        }
    }
}
