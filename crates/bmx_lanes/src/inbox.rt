//! What is on its way to one node: a queue for each sender.
ghost use Rattle.std.specs.Prelude.{◌≡◌, ◌∷◌, ◌++◌, [], length, drop, replicate, slice_get, OnOk, OnErr, IfOk};
ghost use Rattle.bmx_types.specs.Updates.{put};
ghost use Rattle.bmx_lanes.specs.Sending.{lane_from, senders_below};

use bmx_types::{NoMemory, NodeNo};
use std::alloc::Global;
use std::collections::VecDeque;
use std::marker::Model;

/// The most nodes of a store.
pub(crate) const NODES: usize = 8;

/// What is on its way to one node. Contracts see a list for each sender.
#[derive(Drop)]
pub(crate) struct Inbox<T> {
    queues: Vec<VecDeque<T>>,
    senders: usize,
}

impl<T> Model for Inbox<T> {
    ghost use Rattle.std.specs.Prelude.{◌≡◌, List, length, map};
    ghost use Rattle.bmx_lanes.specs.Inside.Counts.{Counts};

    ghost Value = { List (List T) };

    ghost view = { λ b. map (λ q. q.items) b.queues.items };

    ghost invariant = { λ b. (length b.queues.items ≡ 8) × Counts (map (λ q. q.items) b.queues.items) b.senders };
}

impl<T: Copy> Inbox<T> {
    /// Nothing is on its way. Takes memory for an empty queue from each node.
    pub(crate) fn new(alloc: Global) -> Result<Inbox<T>, NoMemory>
        ensures { IfOk result (λ b. b ≡ replicate 8 []) }
    {
        let mut queues = Vec::with_capacity(alloc, NODES)?;
        for _ in 0..NODES {
            queues.push(VecDeque::new(alloc))?;
        }
        Ok(Inbox { queues, senders: 0 })
    }

    /// Puts an item at the end of what is on its way from a node. Amortized constant time.
    pub(crate) fn push(&mut self, from: NodeNo, item: T) -> Result<(), NoMemory>
        ensures ok { OnOk result (lane_from self.new ≡ put (lane_from self.old) from (lane_from self.old from ++ item ∷ [])) }
        ensures err { OnErr result (self.new ≡ self.old) }
    {
        let queue = &mut self.queues[from.get() as usize];
        let was_empty = queue.is_empty();
        queue.push_back(item)?;
        if was_empty {
            self.senders += 1;
        }
        Ok(())
    }

    /// The first on its way from a node, None where nothing is.
    pub(crate) fn first(&self, from: NodeNo) -> Option<T>
        ensures { result ≡ slice_get (lane_from self.now from) 0 }
    {
        self.queues[from.get() as usize].front().copied()
    }

    /// Takes out the first on its way from a node, None where nothing is. Constant time.
    pub(crate) fn pop(&mut self, from: NodeNo) -> Option<T>
        ensures first { result ≡ slice_get (lane_from self.old from) 0 }
        ensures rest { lane_from self.new ≡ put (lane_from self.old) from (drop 1 (lane_from self.old from)) }
    {
        let queue = &mut self.queues[from.get() as usize];
        let item = queue.pop_front()?;
        if queue.is_empty() {
            self.senders -= 1;
        }
        Some(item)
    }

    /// How many nodes have something on its way.
    pub(crate) fn senders(&self) -> usize
        ensures { result ≡ senders_below (lane_from self.now) 8 }
    {
        self.senders
    }
}
