//! Addresses of words, and what is told of an object's place.
ghost use Rattle.std.specs.Prelude.{◌≡◌, ℕ, ◌+◌, ◌*◌, ◌/◌, ◌%◌, ◌^◌, ◌≤◌, ◌<◌, ◌↔◌, IsSome, IfSome};
ghost use Rattle.bmx_types.specs.Words.{address_word, home_of, segment_of, index_of, IsAddress};

use crate::names::Name;
use crate::numbers::{BunchNo, NodeNo};
use std::marker::Model;

/// How far apart the words of the same place in two homes lie.
const WORDS_PER_HOME: u64 = 1 << 56;

/// How far apart the words of the same place in two segments of a home lie.
const WORDS_PER_SEGMENT: u64 = 1 << 32;

/// The address of a word: its home node, the number of a segment of that home from 1, and the index
/// of the word in the segment. Contracts see its word: the home in the top 8 bits, the segment in the
/// next 24, the index in the low 32. No address has the word 0.
#[derive(Clone, Copy, Debug, PartialEq, Eq, PartialOrd, Ord, Hash)]
pub struct Address {
    word: u64,
}

impl Model for Address {
    ghost use Rattle.std.specs.Prelude.{ℕ, ◌/◌, ◌%◌, ◌^◌, ◌<◌};
    ghost use Rattle.bmx_types.specs.Words.{home_of, segment_of, index_of, IsAddress};

    ghost Value = { ℕ };

    ghost view = { λ a. a.word };

    ghost invariant = { λ a. IsAddress a.word };

    ghost inverse = { λ w. record { word = w } };
}

impl Address {
    /// The address of a word, None where the segment is 0 or over 65,535, or the word is over 1,023.
    pub fn new(home: NodeNo, segment: u32, word: u32) -> Option<Address>
        ensures some { IsSome result ↔ ((0 < segment) × (segment < 2 ^ 16) × (word < 1024)) }
        ensures value { IfSome result (λ a. a ≡ address_word home segment word) }
    {
        if segment > 0 && segment < 1 << 16 && word < 1024 {
            Some(Address {
                word: u64::from(home.get()) * WORDS_PER_HOME
                    + u64::from(segment) * WORDS_PER_SEGMENT
                    + u64::from(word),
            })
        } else {
            None
        }
    }

    /// The node whose segment it is in.
    pub fn home(&self) -> NodeNo
        ensures { result ≡ home_of self.now }
    {
        NodeNo {
            number: (self.word / WORDS_PER_HOME) as u8,
        }
    }

    /// The number of the segment, from 1.
    pub fn segment(&self) -> u32
        ensures value { result ≡ segment_of self.now }
        ensures range { (0 < result) × (result < 2 ^ 16) }
    {
        (self.word % WORDS_PER_HOME / WORDS_PER_SEGMENT) as u32
    }

    /// The index of the word in its segment.
    pub fn index(&self) -> u32
        ensures value { result ≡ index_of self.now }
        ensures range { result < 1024 }
    {
        (self.word % WORDS_PER_SEGMENT) as u32
    }

    /// Its word.
    pub fn word(&self) -> u64
        ensures value { result ≡ self.now }
        ensures address { IsAddress result }
    {
        self.word
    }

    /// The address of that word, None where no address has it.
    pub fn from_word(w: u64) -> Option<Address>
        ensures some { IsSome result ↔ IsAddress w }
        ensures value { IfSome result (λ a. a ≡ w) }
    {
        let segment = w % WORDS_PER_HOME / WORDS_PER_SEGMENT;
        let index = w % WORDS_PER_SEGMENT;
        if w / WORDS_PER_HOME < 8 && segment > 0 && segment < 1 << 16 && index < 1024 {
            Some(Address { word: w })
        } else {
            None
        }
    }
}

/// Where an object lies, and how often it has moved. A larger `moves` is newer.
#[derive(Clone, Copy, Debug, PartialEq, Eq)]
pub struct Place {
    pub address: Address,
    pub moves: u64,
}

/// What a node tells of an object beside its fields.
#[derive(Clone, Copy, Debug, PartialEq, Eq)]
pub struct Info {
    pub name: Name,
    pub bunch: BunchNo,
    /// How many fields it has.
    pub size: u8,
    pub place: Place,
}
