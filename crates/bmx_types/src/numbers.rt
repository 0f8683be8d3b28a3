//! Nodes, bunches and modes by their numbers, and the want of memory.
ghost use Rattle.std.specs.Prelude.{◌≡◌, ℕ, ◌≤◌, ◌<◌, ◌↔◌, IsSome, IfSome};

use crate::lists::Items;
use std::alloc::{AllocError, AllocFailed};
use std::marker::Model;

/// No memory was found. What was to change is as it was before the call.
#[derive(Clone, Copy, Debug, PartialEq, Eq)]
pub struct NoMemory;

impl From<AllocError> for NoMemory {
    fn from(_error: AllocError) -> NoMemory {
        NoMemory
    }
}

impl<T: Drop> From<AllocFailed<T>> for NoMemory {
    fn from(_failed: AllocFailed<T>) -> NoMemory {
        NoMemory
    }
}

/// How a token is held, or wanted: many may read, or one may write.
#[derive(Clone, Copy, Debug, PartialEq, Eq, PartialOrd, Ord, Hash)]
pub enum Mode {
    Read,
    Write,
}

/// The number of a node, from 0 to 7. Contracts see the number.
#[derive(Clone, Copy, Debug, PartialEq, Eq, PartialOrd, Ord, Hash)]
pub struct NodeNo {
    pub(crate) number: u8,
}

impl Model for NodeNo {
    ghost Value = { ℕ };

    ghost view = { λ n. n.number };

    ghost invariant = { λ n. n.number < 8 };

    ghost inverse = { λ n. record { number = n } };
}

impl NodeNo {
    /// The node of that number, None where it is over 7.
    pub fn new(n: u8) -> Option<NodeNo>
        ensures some { IsSome result ↔ (n < 8) }
        ensures value { IfSome result (λ node. node ≡ n) }
    {
        if n < 8 {
            Some(NodeNo { number: n })
        } else {
            None
        }
    }

    /// Its number.
    pub fn get(&self) -> u8
        ensures value { result ≡ self.now }
        ensures bound { result < 8 }
    {
        self.number
    }
}

/// Nodes in order.
pub type NodeNos = Items<NodeNo>;

/// The number of a bunch, from 0 to 15. Contracts see the number.
#[derive(Clone, Copy, Debug, PartialEq, Eq, PartialOrd, Ord, Hash)]
pub struct BunchNo {
    number: u8,
}

impl Model for BunchNo {
    ghost Value = { ℕ };

    ghost view = { λ b. b.number };

    ghost invariant = { λ b. b.number < 16 };

    ghost inverse = { λ n. record { number = n } };
}

impl BunchNo {
    /// The bunch of that number, None where it is over 15.
    pub fn new(b: u8) -> Option<BunchNo>
        ensures some { IsSome result ↔ (b < 16) }
        ensures value { IfSome result (λ bunch. bunch ≡ b) }
    {
        if b < 16 {
            Some(BunchNo { number: b })
        } else {
            None
        }
    }

    /// Its number.
    pub fn get(&self) -> u8
        ensures value { result ≡ self.now }
        ensures bound { result < 16 }
    {
        self.number
    }
}
