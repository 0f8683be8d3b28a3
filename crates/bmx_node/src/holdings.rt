//! What a node has: tokens, memory and mail, kept as one. Only here do they change.
ghost use Rattle.std.specs.Prelude.{◌≡◌, ℕ, ◌+◌, ◌<◌, ◌≤◌, ◌^◌, ◌∷◌, [], if◌then◌else◌, not, length, map, filter_map, All, OnOk, OnErr, IfOk};
ghost use Rattle.bmx_types.specs.declared.addresses.Info.{Info as InfoOf};
ghost use Rattle.bmx_graph.specs.Step.{target_of};
ghost use Rattle.bmx_graph.specs.declared.effects.Effect.TheVariants as graph_effect;
ghost use Rattle.bmx_memory.specs.Contents.{room_of};
ghost use Rattle.bmx_memory.specs.Shown.{shown, HasEntry};
ghost use Rattle.bmx_protocol.specs.Nodes.{seen_graph};
ghost use Rattle.bmx_protocol.specs.Changes.{after_changes, Hears};
ghost use Rattle.bmx_protocol.specs.Places.{is_full, with_made, with_learnt, with_all_learnt};
ghost use Rattle.bmx_protocol.specs.Rules.{graph_changes, next_name, info_in};
ghost use Rattle.bmx_node.specs.Seen.{state_of, places_of, limit_of, node_of, FitsOperand};
ghost use Rattle.bmx_node.specs.Inside.Graphs.{graph_of};
ghost use Rattle.bmx_node.specs.Inside.Keeping.{Keeps, Frame};
ghost use Rattle.bmx_node.specs.Inside.Hearing.{CanHear, Rooms, KeepsBut, KeepsMost};

use crate::strays::Dimensions;
use bmx_graph::{Sight, target};
use bmx_mail::{Mail, Outbox};
use bmx_memory::Memory;
use bmx_msg::{Field, Fields};
use bmx_protocol::{Done, NodeAnswer};
use bmx_segment::PlaceError;
use bmx_token::Part;
use bmx_tokens::Tokens;
use bmx_types::{BunchNo, Info, Items, Mode, Name, NoMemory, NodeNo, Operand, Refusal, Val};
use std::alloc::Global;

/// What a node has, apart from its stamp. Each call is one change that a rule makes, or some of them in a row.
#[derive(Drop)]
pub struct Holdings {
    pub(crate) store: Dimensions,
    pub(crate) me: NodeNo,
    pub(crate) alloc: Global,
    pub(crate) memory: Memory,
    pub(crate) tokens: Tokens,
    pub(crate) mail: Mail,
    /// How many steps were made.
    pub(crate) clock: u64,
    /// How many names were made.
    pub(crate) made: u64,
}

impl Holdings {
    /// What an operand of a command means here.
    pub(crate) fn target(&self, on: Operand) -> Option<Name>
        requires keeps { Keeps self.now }
        requires operand { FitsOperand self.now.store.bunches on }
        ensures { result ≡ target_of (seen_graph self.now.me (state_of self.now)) self.now.me on }
    {
        target(self, self.me, on)
    }

    /// An answer with no letter.
    pub(crate) fn tell(&self, answer: NodeAnswer) -> Done
        ensures { result ≡ record { answer = answer; letters = [] } }
    {
        Done {
            answer,
            letters: Items::new(self.alloc),
        }
    }

    pub(crate) fn refuse(&self, why: Refusal) -> Done
        ensures { result ≡ record { answer = NodeAnswer.Refused why; letters = [] } }
    {
        self.tell(NodeAnswer::Refused(why))
    }

    /// Makes the node's next object, to which the register refers; false where there is no segment for it.
    pub(crate) fn make(&mut self, register: u8, bunch: BunchNo, size: u8) -> Result<bool, NoMemory>
        requires keeps { Keeps self.old }
        requires register { register < 16 }
        requires size { size ≤ 32 }
        requires clock { self.old.clock < 2 ^ 55 }
        requires few { self.old.made ≤ self.old.clock + 320000 }
        ensures fits { IfOk result (λ made. made ≡ not (is_full (limit_of self.old) (places_of self.old) bunch size)) }
        ensures state { IfOk result (λ made. state_of self.new ≡ (if made then after_changes (state_of self.old) (graph_changes self.old.me (state_of self.old) (graph_effect.Makes register bunch size)) else state_of self.old)) }
        ensures places { IfOk result (λ made. places_of self.new ≡ (if made then with_made self.old.me (places_of self.old) (next_name self.old.me (state_of self.old)) bunch size else places_of self.old)) }
        ensures err { OnErr result (node_of self.new ≡ node_of self.old) }
        ensures keeps { Keeps self.new }
        ensures frame { Frame self.old self.new }
    {
        let count = self.made + 1;
        let name = Name::new(self.me, count).unwrap();
        self.tokens.reserve(1)?;
        match self.memory.make(name, bunch, size) {
            Ok(()) => {}
            Err(PlaceError::Full) => return Ok(false),
            Err(PlaceError::NoMemory) => return Err(NoMemory),
        }
        self.tokens.add(name, Part::owner(self.alloc));
        self.made = count;
        self.memory.set_register(register, Val::Ref(name));
        Ok(true)
    }

    /// Hears of an object from a node: where it lies is learnt, and a name that wasn't known is known from
    /// now on, without a copy. Takes no memory.
    pub(crate) fn hear(&mut self, from: NodeNo, info: &Info)
        requires keeps { KeepsMost self.old }
        requires can { CanHear self.old from (info.now ∷ []) }
        requires rooms { Rooms self.old 1 }
        ensures state { state_of self.new ≡ after_changes (state_of self.old) (Hears from info.now ∷ []) }
        ensures places { places_of self.new ≡ with_learnt (places_of self.old) info.now }
        ensures rooms { (n : ℕ) → Rooms self.old (n + 1) → Rooms self.new n }
        ensures mail { self.new.mail ≡ self.old.mail }
        ensures made { self.new.made ≡ self.old.made }
        ensures keeps { (but : ℕ) → KeepsBut but self.old → KeepsBut but self.new }
        ensures frame { Frame self.old self.new }
    {
        let new = self.memory.hear(info);
        if new {
            self.tokens.add(info.name, Part::child(self.alloc, from));
        }
    }

    /// Hears of the objects of fields, in order. Takes no memory. Linear in the fields.
    pub(crate) fn hear_fields(&mut self, from: NodeNo, fields: &[Field])
        requires keeps { KeepsMost self.old }
        requires can { CanHear self.old from (filter_map info_in fields.now) }
        requires rooms { Rooms self.old (length (filter_map info_in fields.now)) }
        ensures state { state_of self.new ≡ after_changes (state_of self.old) (map (Hears from) (filter_map info_in fields.now)) }
        ensures places { places_of self.new ≡ with_all_learnt (places_of self.old) (filter_map info_in fields.now) }
        ensures mail { self.new.mail ≡ self.old.mail }
        ensures made { self.new.made ≡ self.old.made }
        ensures keeps { (but : ℕ) → KeepsBut but self.old → KeepsBut but self.new }
        ensures frame { Frame self.old self.new }
    {
        for field in fields {
            if let Field::Ref(info) = field {
                self.hear(from, info);
            }
        }
    }
}

/// The outcome of a step that posted letters.
pub(crate) fn answer(answer: NodeAnswer, outbox: Outbox) -> Done
    ensures { result ≡ record { answer = answer; letters = outbox.letters } }
{
    Done {
        answer,
        letters: outbox.into_letters(),
    }
}

impl Sight for Holdings {
    ghost use Rattle.bmx_node.specs.Inside.Graphs.{graph_of};

    ghost graph = { graph_of };

    #[tactic(auto, unfolding(crate::specs::Inside::Graphs::graph_of))]
    fn register(&self, node: NodeNo, register: u8) -> Val {
        if node == self.me {
            self.memory.register(register)
        } else {
            Val::Null
        }
    }

    #[tactic(auto, unfolding(crate::specs::Inside::Graphs::graph_of))]
    fn hold(&self, node: NodeNo, name: Name) -> Option<Mode> {
        if node != self.me {
            return None;
        }
        self.tokens.get(name)?.held
    }

    #[tactic(auto, unfolding(crate::specs::Inside::Graphs::graph_of))]
    fn field(&self, name: Name, index: u8) -> Option<Val> {
        self.memory.field(name, index)
    }
}
