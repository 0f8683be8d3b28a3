//! What is on its way between all nodes: one inbox for each.
ghost use Rattle.std.specs.Prelude.{◌≡◌, ◌∷◌, ◌++◌, [], drop, slice_get, OnOk, OnErr, IfOk};
ghost use Rattle.bmx_types.specs.Updates.{put_at};
ghost use Rattle.bmx_lanes.specs.Sending.{lane_of, senders_to};

use crate::inbox::{Inbox, NODES};
use bmx_types::{NoMemory, NodeNo};
use std::alloc::Global;
use std::marker::Model;

/// What is on its way from each node to each, in order. Contracts see for each receiver a list for each sender.
/// The memory of what was taken out serves what comes after it: a lane keeps room for the most it had at once.
#[derive(Drop)]
pub struct Lanes<T> {
    inboxes: Vec<Inbox<T>>,
}

impl<T> Model for Lanes<T> {
    ghost use Rattle.std.specs.Prelude.{◌≡◌, List, length};

    ghost Value = { List (List (List T)) };

    ghost view = { λ l. l.inboxes.items };

    ghost invariant = { λ l. length l.inboxes.items ≡ 8 };
}

impl<T: Copy> Lanes<T> {
    /// Nothing is on its way. Takes memory for an empty queue between each two nodes.
    pub fn new(alloc: Global) -> Result<Lanes<T>, NoMemory>
        ensures { IfOk result (λ lanes. lane_of lanes ≡ (λ _ _. [])) }
    {
        let mut inboxes = Vec::with_capacity(alloc, NODES)?;
        for _ in 0..NODES {
            inboxes.push(Inbox::new(alloc)?)?;
        }
        Ok(Lanes { inboxes })
    }

    /// Puts an item at the end of what is on its way from a node to a node. Amortized constant time.
    pub fn push(&mut self, from: NodeNo, to: NodeNo, item: T) -> Result<(), NoMemory>
        ensures ok { OnOk result (lane_of self.new ≡ put_at (lane_of self.old) from to (lane_of self.old from to ++ item ∷ [])) }
        ensures err { OnErr result (self.new ≡ self.old) }
    {
        self.inboxes[to.get() as usize].push(from, item)
    }

    /// The first on its way from a node to a node, None where nothing is.
    pub fn first(&self, from: NodeNo, to: NodeNo) -> Option<T>
        ensures { result ≡ slice_get (lane_of self.now from to) 0 }
    {
        self.inboxes[to.get() as usize].first(from)
    }

    /// Takes out the first on its way from a node to a node, None where nothing is. Constant time.
    pub fn pop(&mut self, from: NodeNo, to: NodeNo) -> Option<T>
        ensures first { result ≡ slice_get (lane_of self.old from to) 0 }
        ensures rest { lane_of self.new ≡ put_at (lane_of self.old) from to (drop 1 (lane_of self.old from to)) }
    {
        self.inboxes[to.get() as usize].pop(from)
    }

    /// How many nodes have something on its way to a node. Constant time.
    pub fn senders(&self, to: NodeNo) -> usize
        ensures { result ≡ senders_to (lane_of self.now) to }
    {
        self.inboxes[to.get() as usize].senders()
    }
}
