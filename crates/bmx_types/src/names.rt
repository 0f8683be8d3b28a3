//! Names of objects.
ghost use Rattle.std.specs.Prelude.{◌≡◌, ℕ, ◌+◌, ◌*◌, ◌/◌, ◌%◌, ◌^◌, ◌≤◌, ◌<◌, ◌↔◌, IsSome, IfSome};
ghost use Rattle.bmx_types.specs.Words.{maker, count_of, IsName, name_word};

use crate::lists::Items;
use crate::numbers::NodeNo;
use std::marker::Model;

/// How far apart the words of two nodes' first names lie.
const NAMES_PER_NODE: u64 = 1 << 56;

/// An object's name: the node that made it, and its count there from 1. No name is used twice.
/// Contracts see its word: the node in the top 8 bits, the count in the low 56.
#[derive(Clone, Copy, Debug, PartialEq, Eq, PartialOrd, Ord, Hash)]
pub struct Name {
    word: u64,
}

impl Model for Name {
    ghost use Rattle.std.specs.Prelude.{ℕ, ◌/◌, ◌%◌, ◌^◌, ◌<◌};
    ghost use Rattle.bmx_types.specs.Words.{maker, count_of, IsName};

    ghost Value = { ℕ };

    ghost view = { λ x. x.word };

    ghost invariant = { λ x. IsName x.word };

    ghost inverse = { λ w. record { word = w } };
}

impl Name {
    /// The count-th name of the node, None where the count is 0 or at least 2^56.
    pub fn new(node: NodeNo, count: u64) -> Option<Name>
        ensures some { IsSome result ↔ ((0 < count) × (count < 2 ^ 56)) }
        ensures value { IfSome result (λ x. x ≡ name_word node count) }
    {
        if count > 0 && count < NAMES_PER_NODE {
            Some(Name {
                word: u64::from(node.get()) * NAMES_PER_NODE + count,
            })
        } else {
            None
        }
    }

    /// The node that made it.
    pub fn node(&self) -> NodeNo
        ensures { result ≡ maker self.now }
    {
        NodeNo {
            number: (self.word / NAMES_PER_NODE) as u8,
        }
    }

    /// Which of that node's names it is, from 1.
    pub fn count(&self) -> u64
        ensures value { result ≡ count_of self.now }
        ensures range { (0 < result) × (result < 2 ^ 56) }
    {
        self.word % NAMES_PER_NODE
    }

    /// Its word: the node in the top 8 bits, the count in the low 56.
    pub fn word(&self) -> u64
        ensures value { result ≡ self.now }
        ensures name { IsName result }
    {
        self.word
    }

    /// The name of that word, None where no name has it.
    pub fn from_word(w: u64) -> Option<Name>
        ensures some { IsSome result ↔ IsName w }
        ensures value { IfSome result (λ x. x ≡ w) }
    {
        if w / NAMES_PER_NODE < 8 && w % NAMES_PER_NODE > 0 {
            Some(Name { word: w })
        } else {
            None
        }
    }
}

/// A reference from one object to another.
#[derive(Clone, Copy, Debug, PartialEq, Eq, PartialOrd, Ord, Hash)]
pub struct Pair {
    pub source: Name,
    pub target: Name,
}

/// Names in order.
pub type Names = Items<Name>;

/// Pairs in order.
pub type Pairs = Items<Pair>;
