//! The graph that all nodes share, and a command done on it.
ghost use Rattle.std.specs.Prelude.{◌≡◌, ◌↔◌, ℕ, ◌+◌, ◌*◌, ◌-◌, ◌^◌, ◌<◌, Some, None, OnOk, OnErr, IfOk, IfErr, IsSome, Contains, option_and_then, slice_get};
ghost use Rattle.std.specs.List.Sorted.{IsStrictlyIncreasing};
ghost use Rattle.bmx_types.specs.Openings.{bunches_of};
ghost use Rattle.bmx_graph.specs.Reached.{IsReached};
ghost use Rattle.bmx_types.specs.Words.{anchor_of};

use crate::answers::Answer;
use crate::decisions::{Sight, decide};
use crate::effects::Effect;
use crate::rules::{anchor, first_counts, null_registers, register_place};
use crate::walks::Walk;
use bmx_types::{Command, Mode, Name, Names, NoMemory, NodeNo, Opening, Val};
use std::alloc::Global;
use std::collections::HashMap;

/// How many nodes there may be.
const NODES: usize = 8;

/// How many registers all nodes have.
const ALL_REGISTERS: usize = 128;

/// The graph that all nodes share: the fields of each object by its name, what each node has in its
/// registers and which tokens it holds, how many names it has made, and how many bunches there are.
#[derive(Drop)]
pub struct Graph {
    alloc: Global,
    bunches: u8,
    objects: HashMap<Name, Vec<Val>>,
    /// Those of node 0 first.
    registers: [Val; ALL_REGISTERS],
    held: HashMap<(NodeNo, Name), Mode>,
    made: [u64; NODES],
}

impl Sight for Graph {
    ghost use Rattle.bmx_graph.specs.Graphs.{state_of};

    ghost graph = { state_of };

    fn register(&self, node: NodeNo, register: u8) -> Val {
        self.value(node, register)
    }

    fn hold(&self, node: NodeNo, name: Name) -> Option<Mode> {
        self.held.get(&(node, name)).copied()
    }

    fn field(&self, name: Name, index: u8) -> Option<Val> {
        Graph::field(self, name, index)
    }
}

impl Graph {
    ghost use Rattle.bmx_graph.specs.State.{fields_of, opening_state};
    ghost use Rattle.bmx_graph.specs.Step.{with_register, with_held, with_field, with_new, answer_of, state_after, changed, IsPossible};
    ghost use Rattle.bmx_graph.specs.Graphs.{state_of, bunches_in, HasRegisters};

    /// The graph of a store that opens so: its births, null registers and no token held. Linear in the
    /// births and their fields.
    pub fn open(alloc: Global, opening: &Opening) -> Result<Graph, NoMemory>
        ensures state { IfOk result (λ graph. state_of graph ≡ opening_state opening.now.births) }
        ensures bunches { IfOk result (λ graph. bunches_in graph ≡ bunches_of opening.now.births) }
    {
        let mut objects = HashMap::new(alloc);
        let mut bunches = 0u8;
        for birth in opening.births.as_slice() {
            let fields = Vec::from_slice(alloc, birth.fields.as_slice())?;
            objects.insert(birth.name, fields)?;
            bunches = bunches.max(birth.bunch.get() + 1);
        }
        Ok(Graph {
            alloc,
            bunches,
            objects,
            registers: null_registers(),
            held: HashMap::new(alloc),
            made: first_counts(opening.births.len()),
        })
    }

    /// Does a node's command, where it can be done, and answers it. A wait and a refusal change nothing.
    /// The node may be any of the 8. Expected constant time, but for the fields of a new object.
    pub fn apply(&mut self, node: NodeNo, command: &Command) -> Result<Answer, NoMemory>
        requires registers { HasRegisters command.now }
        requires names { (state_of self.old).made node < 2 ^ 56 - 1 }
        ensures answer { IfOk result (λ a. a ≡ answer_of (state_of self.old) node command.now) }
        ensures ok { IfOk result (λ a. state_of self.new ≡ state_after (state_of self.old) node command.now a) }
        ensures err { OnErr result (state_of self.new ≡ state_of self.old) }
        ensures bunches { bunches_in self.new ≡ bunches_in self.old }
    {
        let decision = decide(self, node, command);
        self.change(node, &decision.effect)?;
        Ok(decision.answer)
    }

    /// A field of an object, None where there is no object of that name or it has no such field.
    pub fn field(&self, name: Name, i: u8) -> Option<Val>
        ensures { result ≡ option_and_then (λ fields. slice_get fields i) ((state_of self.now).object name) }
    {
        self.objects.get(&name)?.get(i as usize).copied()
    }

    /// What a node's register holds.
    pub fn value(&self, node: NodeNo, register: u8) -> Val
        requires { register < 16 }
        ensures { result ≡ (state_of self.now).register node register }
    {
        self.registers[register_place(node, register)]
    }

    /// How many names a node has made.
    pub fn made(&self, node: NodeNo) -> u64
        ensures { result ≡ (state_of self.now).made node }
    {
        self.made[node.get() as usize]
    }

    /// The names that are reached, rising: those in all registers, all anchors, and, with a name, those
    /// in the fields of its object. A name without an object is reached all the same. Each object is
    /// looked at once: O((n + e) log n) for n names reached, whose objects have e fields together.
    pub fn reached(&self, alloc: Global) -> Result<Names, NoMemory>
        ensures rising { IfOk result (λ names. IsStrictlyIncreasing names) }
        ensures reached { IfOk result (λ names. (x : ℕ) → Contains names x ↔ IsReached 8 (bunches_in self.now) (state_of self.now) x) }
    {
        let mut walk = Walk::new(alloc);
        walk.find_all(&self.registers)?;
        for bunch in 0..self.bunches {
            walk.find(Val::Ref(anchor(bunch)))?;
        }
        let mut next = 0;
        while let Some(name) = walk.get(next) {
            if let Some(fields) = self.objects.get(&name) {
                walk.find_all(fields.as_slice())?;
            }
            next += 1;
        }
        walk.into_names(alloc)
    }

    /// Carries out the effect of a node's command.
    fn change(&mut self, node: NodeNo, effect: &Effect) -> Result<(), NoMemory>
        requires possible { IsPossible (state_of self.old) effect.now }
        requires names { (state_of self.old).made node < 2 ^ 56 - 1 }
        ensures ok { OnOk result (state_of self.new ≡ changed (state_of self.old) node effect.now) }
        ensures err { OnErr result (state_of self.new ≡ state_of self.old) }
        ensures bunches { bunches_in self.new ≡ bunches_in self.old }
    {
        match *effect {
            Effect::Nothing => Ok(()),
            Effect::Makes { register, size, .. } => self.make(node, register, size),
            Effect::Sets { register, value } => {
                self.set_register(node, register, value);
                Ok(())
            }
            Effect::Stores { name, index, value } => {
                self.set_field(name, index, value);
                Ok(())
            }
            Effect::Holds {
                name,
                hold: Some(mode),
            } => self.take(node, name, mode),
            Effect::Holds { name, hold: None } => {
                self.give_back(node, name);
                Ok(())
            }
        }
    }

    /// Makes the node's next object, of null fields, and refers to it by the register.
    fn make(&mut self, node: NodeNo, register: u8, size: u8) -> Result<(), NoMemory>
        requires register { register < 16 }
        requires names { (state_of self.old).made node < 2 ^ 56 - 1 }
        ensures ok { OnOk result (state_of self.new ≡ with_new (state_of self.old) node register size) }
        ensures err { OnErr result (state_of self.new ≡ state_of self.old) }
        ensures bunches { bunches_in self.new ≡ bunches_in self.old }
    {
        let count = self.made(node) + 1;
        let name = Name::new(node, count).unwrap();
        let fields = Vec::from_elem(self.alloc, Val::Null, size as usize)?;
        self.objects.insert(name, fields)?;
        self.made[node.get() as usize] = count;
        self.set_register(node, register, Val::Ref(name));
        Ok(())
    }

    /// A register becomes the value.
    fn set_register(&mut self, node: NodeNo, register: u8, value: Val)
        requires { register < 16 }
        ensures state { state_of self.new ≡ with_register (state_of self.old) node register value }
        ensures bunches { bunches_in self.new ≡ bunches_in self.old }
    {
        self.registers[register_place(node, register)] = value;
    }

    /// A node holds a name so.
    fn take(&mut self, node: NodeNo, name: Name, mode: Mode) -> Result<(), NoMemory>
        ensures ok { OnOk result (state_of self.new ≡ with_held (state_of self.old) node name (Some mode)) }
        ensures err { OnErr result (state_of self.new ≡ state_of self.old) }
        ensures bunches { bunches_in self.new ≡ bunches_in self.old }
    {
        self.held.insert((node, name), mode)?;
        Ok(())
    }

    /// A node holds a name no longer.
    fn give_back(&mut self, node: NodeNo, name: Name)
        ensures state { state_of self.new ≡ with_held (state_of self.old) node name None }
        ensures bunches { bunches_in self.new ≡ bunches_in self.old }
    {
        self.held.remove(&(node, name));
    }

    /// A field that is there becomes the value.
    fn set_field(&mut self, name: Name, index: u8, value: Val)
        requires { IsSome (slice_get (fields_of (state_of self.old) name) index) }
        ensures state { state_of self.new ≡ with_field (state_of self.old) name index value }
        ensures bunches { bunches_in self.new ≡ bunches_in self.old }
    {
        let fields = self.objects.get_mut(&name).unwrap();
        fields[index as usize] = value;
    }
}
