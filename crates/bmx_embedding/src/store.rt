//! The nodes with the letters in flight between them.
ghost use Rattle.std.specs.Prelude.{◌≡◌, ◌<◌, ◌++◌, ◌↔◌, [], length, slice_get, Some, IsSome, IfSome, IfOk, IfErr, OnOk};
ghost use Rattle.bmx_node.specs.Seen.{FitsInput};
ghost use Rattle.bmx_embedding.specs.Stores.{Acts, Delivers, IsSame, parcels};

use crate::failures::Failure;
use crate::nodes::Nodes;
use bmx_msg::Letter;
use bmx_protocol::{Done, Input, NodeAnswer, Sending, Sent};
use bmx_types::{Name, NodeNo};
use std::alloc::Global;
use std::collections::VecDeque;

/// A letter in flight.
#[derive(Debug, Drop)]
pub struct Parcel {
    pub from: NodeNo,
    pub to: NodeNo,
    pub letter: Letter,
}

/// The nodes, and the letters in flight between them, the first sent first. So those between two nodes stay in the
/// order in which they were sent.
#[derive(Drop)]
pub struct Store {
    alloc: Global,
    nodes: Nodes,
    in_flight: VecDeque<Parcel>,
}

impl Store {
    /// The nodes with no letter in flight.
    pub fn new(alloc: Global, nodes: Nodes) -> Store
        ensures nodes { result.nodes ≡ nodes }
        ensures in_flight { result.in_flight.items ≡ [] }
    {
        Store {
            alloc,
            nodes,
            in_flight: VecDeque::new(alloc),
        }
    }

    /// A node does one step, and its letters come into flight behind the others.
    pub fn step(&mut self, at: NodeNo, input: &Input) -> Result<NodeAnswer, Failure>
        requires { FitsInput 1 input.now }
        ensures ok { IfOk result (λ answer. Acts self.old at input.now answer self.new) }
        ensures err { IfErr result (λ failure. ¬ (failure ≡ Failure.LettersLost) → IsSame self.old self.new) }
    {
        let done = self.nodes.step(at, input)?;
        self.post(at, done)
    }

    /// The first letter in flight.
    pub fn first(&self) -> Option<&Parcel>
        ensures some { IsSome result ↔ (0 < length self.now.in_flight.items) }
        ensures first { IfSome result (λ parcel. slice_get self.now.in_flight.items 0 ≡ Some parcel.now) }
    {
        self.in_flight.front()
    }

    /// Hands the first letter in flight to the node that it goes to. What that node sends comes into flight behind the
    /// others. Where it fails the letter is still the first in flight.
    pub fn deliver(&mut self) -> Result<NodeAnswer, Failure>
        requires { 0 < length self.old.in_flight.items }
        ensures ok { IfOk result (λ answer. Delivers self.old answer self.new) }
        ensures err { IfErr result (λ failure. ¬ (failure ≡ Failure.LettersLost) → IsSame self.old self.new) }
    {
        let Some(parcel) = self.in_flight.front() else {
            unreachable!()
        };
        let (from, to) = (parcel.from, parcel.to);
        let letter = parcel.letter.copy(self.alloc)?;
        let done = self.nodes.step(to, &Input::Take { from, letter })?;
        let _delivered = self.in_flight.pop_front();
        self.post(to, done)
    }

    /// A node that can serve the head of a queue, and whose.
    pub fn servable(&self) -> Option<(NodeNo, Name)> {
        self.nodes.servable()
    }

    /// What a node sent comes into flight behind the others.
    fn post(&mut self, from: NodeNo, done: Done) -> Result<NodeAnswer, Failure>
        ensures nodes { self.new.nodes ≡ self.old.nodes }
        ensures ok { IfOk result (λ answer. answer ≡ done.answer) }
        ensures in_flight { OnOk result (self.new.in_flight.items ≡ self.old.in_flight.items ++ parcels from done.letters) }
        ensures err { IfErr result (λ failure. failure ≡ Failure.LettersLost) }
    {
        let Done { answer, letters } = done;
        match send(&mut self.in_flight, from, letters) {
            Ok(()) => Ok(answer),
            Err(failure) => Err(failure),
        }
    }
}

/// Letters of a node come into flight behind the others.
fn send(in_flight: &mut VecDeque<Parcel>, from: NodeNo, letters: Sent) -> Result<(), Failure>
    ensures ok { OnOk result (in_flight.new.items ≡ in_flight.old.items ++ parcels from letters) }
    ensures err { IfErr result (λ failure. failure ≡ Failure.LettersLost) }
{
    for Sending { to, letter } in letters.into_vec() {
        if in_flight.push_back(Parcel { from, to, letter }).is_err() {
            return Err(Failure::LettersLost);
        }
    }
    Ok(())
}
