//! A node: its public calls, and its one step.
ghost use Rattle.std.specs.Prelude.{◌≡◌, ℕ, ◌+◌, ◌<◌, ◌≤◌, ◌^◌, max, false, length, slice_get, OnOk, OnErr, IfOk};
ghost use Rattle.std.specs.Option.{option_map_or};
ghost use Rattle.bmx_protocol.specs.Nodes.{Setting, AreAll, seen_graph};
ghost use Rattle.bmx_protocol.specs.Runs.Programs.{CanServe};
ghost use Rattle.bmx_protocol.specs.Steps.{IsStep, stamp_after, brought};
ghost use Rattle.bmx_tokens.specs.Tables.{part_of, IsIndexed};
ghost use Rattle.bmx_graph.specs.Step.{target_of};
ghost use Rattle.bmx_memory.specs.Meaning.{MeansWhole};
ghost use Rattle.bmx_memory.specs.Shown.{shown, AllHaveEntries};
ghost use Rattle.bmx_node.specs.Seen.{state_of, places_of, node_of, Suits, FitsInput, FitsOperand};
ghost use Rattle.bmx_node.specs.Moved.{MovedAtMost};
ghost use Rattle.bmx_node.specs.Inside.Keeping.{Keeps, Frame};
ghost use Rattle.bmx_node.specs.Inside.Reacting.{IsReaction};

use crate::holdings::Holdings;
use crate::strays::TOO_LARGE;
use crate::taking::Taking;
use bmx_memory::Memory;
use bmx_protocol::{Done, Input, NodeAnswer};
use bmx_types::{Name, NoMemory, Operand};
use std::marker::Model;

/// A node of a store. Contracts see what it has, and its stamp.
#[derive(Drop)]
pub struct Node {
    pub(crate) holdings: Holdings,
    pub(crate) stamp: u64,
}

impl Model for Node {
    ghost use Rattle.std.specs.Prelude.{◌+◌, ◌^◌, ◌≤◌};
    ghost use Rattle.bmx_node.specs.Seen.{places_of};
    ghost use Rattle.bmx_node.specs.Moved.{MovedAtMost};
    ghost use Rattle.bmx_node.specs.Stamped.{Stamped};
    ghost use Rattle.bmx_node.specs.Inside.Keeping.{Keeps};

    ghost Value = { Stamped };

    ghost view = { λ n. record { holdings = n.holdings; stamp = n.stamp } };

    ghost invariant = { λ n. Keeps n.holdings × (n.holdings.made ≤ n.holdings.clock + 320000) × (n.stamp ≤ 2 ^ 62 + n.holdings.clock) × MovedAtMost (2 ^ 62 + n.holdings.clock) (places_of n.holdings) };
}

impl Node {
    /// Does one step: a command, a serve or a letter. It costs what it touches: a few look-ups, each in
    /// expected constant time, the fields of a grant, and the queue that it serves.
    pub fn step(&mut self, input: &Input) -> Result<Done, NoMemory>
        requires clock { self.old.holdings.clock < 2 ^ 55 }
        requires input { FitsInput self.old.holdings.store.bunches input.now }
        ensures step { (st : Setting) → Suits st self.old.holdings → IfOk result (λ done. IsStep st self.old.holdings.me (node_of self.old.holdings) (stamp_after self.old.stamp input.now) input.now done (node_of self.new.holdings)) }
        ensures suits { (st : Setting) → Suits st self.old.holdings → Suits st self.new.holdings }
        ensures me { self.new.holdings.me ≡ self.old.holdings.me }
        ensures store { self.new.holdings.store ≡ self.old.holdings.store }
        ensures clock { OnOk result (self.new.holdings.clock ≡ self.old.holdings.clock + 1) }
        ensures stamp { OnOk result (self.new.stamp ≡ stamp_after self.old.stamp input.now) }
        ensures err { OnErr result (node_of self.new.holdings ≡ node_of self.old.holdings) }
        ensures err_stamp { OnErr result (self.new.stamp ≡ self.old.stamp) }
    {
        let stamp = later(self.stamp, input);
        let done = self.holdings.react(input, stamp)?;
        self.holdings.clock += 1;
        self.stamp = stamp;
        Ok(done)
    }

    /// The stamp becomes the larger.
    pub fn raise(&mut self, stamp: u64)
        requires { stamp < 2 ^ 62 }
        ensures stamp { self.new.stamp ≡ max self.old.stamp stamp }
        ensures rest { self.new.holdings ≡ self.old.holdings }
    {
        self.stamp = self.stamp.max(stamp);
    }

    /// The stamp of the last step, or a larger one to which it was raised.
    pub fn stamp(&self) -> u64
        ensures { result ≡ self.now.stamp }
    {
        self.stamp
    }

    /// How many steps were made.
    pub fn clock(&self) -> u64
        ensures { result ≡ self.now.holdings.clock }
    {
        self.holdings.clock
    }

    /// What an operand of a command means here: the object that a register refers to, or an anchor.
    pub fn target(&self, on: Operand) -> Option<Name>
        requires { FitsOperand self.now.holdings.store.bunches on }
        ensures { let h = self.now.holdings in result ≡ target_of (seen_graph h.me (state_of h)) h.me on }
    {
        self.holdings.target(on)
    }

    /// What the node has of objects, in words.
    pub fn memory(&self) -> &Memory
        ensures value { result.now ≡ self.now.holdings.memory }
        ensures whole { MeansWhole self.now.holdings.memory }
        ensures known { AllHaveEntries (shown self.now.holdings.memory) }
        ensures moved { MovedAtMost (2 ^ 62 + self.now.holdings.clock) (places_of self.now.holdings) }
    {
        let _whole = self.holdings.memory.replica();
        &self.holdings.memory
    }

    /// Whether what is wanted of a name may be taken.
    pub fn is_ready(&self, name: Name) -> bool
        ensures part { result ≡ option_map_or (λ p. p.ready) (part_of self.now.holdings.tokens name) false }
        ensures known { result ≡ option_map_or (λ k. k.part.ready) ((state_of self.now.holdings).known name) false }
    {
        self.holdings.is_ready(name)
    }

    /// The i-th name, by rising name, whose queue can be served; None from their number on.
    pub fn serves(&self, i: u64) -> Option<Name>
        ensures name { result ≡ slice_get self.now.holdings.tokens.servable i }
        ensures index { IsIndexed self.now.holdings.tokens }
    {
        self.holdings.tokens.serves(i)
    }

    /// How many names there are whose queue can be served.
    pub fn serves_count(&self) -> usize
        ensures count { result ≡ length self.now.holdings.tokens.servable }
        ensures all { AreAll (CanServe self.now.holdings.me (state_of self.now.holdings)) self.now.holdings.tokens.servable }
    {
        let _index = self.holdings.tokens.serves(0);
        self.holdings.tokens.served_count()
    }
}

impl Holdings {
    /// Whether what is wanted of a name may be taken.
    fn is_ready(&self, name: Name) -> bool
        ensures { result ≡ option_map_or (λ p. p.ready) (part_of self.now.tokens name) false }
    {
        match self.tokens.get(name) {
            Some(part) => part.ready,
            None => false,
        }
    }

    /// What comes of an input at a stamp; the step isn't counted yet.
    pub(crate) fn react(&mut self, input: &Input, stamp: u64) -> Result<Done, NoMemory>
        requires keeps { Keeps self.old }
        requires clock { self.old.clock < 2 ^ 55 }
        requires few { self.old.made ≤ self.old.clock + 320000 }
        requires input { FitsInput self.old.store.bunches input.now }
        ensures reacts { (st : Setting) → Suits st self.old → IfOk result (λ done. IsReaction st stamp self.old input.now done self.new) }
        ensures err { OnErr result (node_of self.new ≡ node_of self.old) }
        ensures keeps { Keeps self.new }
        ensures frame { Frame self.old self.new }
    {
        match input {
            Input::Do(command) => self.command(command, stamp),
            Input::Serve(name) => self.serve(*name, stamp),
            Input::Take { from, letter } => {
                if self.is_stray(*from, letter) {
                    return Ok(self.tell(NodeAnswer::Stray));
                }
                let taking = Taking {
                    from: *from,
                    seq: letter.seq,
                    stamp,
                };
                self.take(taking, &letter.msg)
            }
        }
    }
}

/// The stamp after a step: one more than what it was, or than a letter's, unless that is too large.
fn later(stamp: u64, input: &Input) -> u64
    requires { stamp < 2 ^ 63 }
    ensures { result ≡ stamp_after stamp input.now }
{
    stamp.max(brought(input)) + 1
}

/// The stamp that an input brings.
fn brought(input: &Input) -> u64
    ensures value { result ≡ brought input.now }
    ensures small { result < 2 ^ 62 }
{
    match input {
        Input::Take { letter, .. } if letter.stamp < TOO_LARGE => letter.stamp,
        _ => 0,
    }
}
