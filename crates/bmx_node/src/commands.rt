//! A command of the node's program.
ghost use Rattle.std.specs.Prelude.{◌+◌, ◌≤◌, ◌≡◌, ℕ, ◌<◌, ◌^◌, ◌∷◌, [], if◌then◌else◌, false, OnErr, IfOk};
ghost use Rattle.bmx_graph.specs.Step.{IsPossible};
ghost use Rattle.bmx_memory.specs.Shown.{shown};
ghost use Rattle.bmx_token.specs.Transitions.{Acquires, Releases};
ghost use Rattle.bmx_protocol.specs.Nodes.{seen_graph};
ghost use Rattle.bmx_protocol.specs.Rules.{graph_rule, do_rule, graph_changes, message};
ghost use Rattle.bmx_protocol.specs.Steps.{made_places, is_nil};
ghost use Rattle.bmx_protocol.specs.declared.inputs.NodeAnswer.TheVariants as answer;
ghost use Rattle.bmx_types.specs.declared.commands.Refusal.TheVariants as refusal;
ghost use Rattle.bmx_node.specs.Seen.{state_of, places_of, node_of, FitsOperand, FitsCommand};
ghost use Rattle.bmx_node.specs.Inside.Graphs.{graph_of};
ghost use Rattle.bmx_node.specs.Inside.Keeping.{Keeps, Frame};
ghost use Rattle.bmx_node.specs.Inside.Reacting.{Reacts, Does, lies_at, operation_on, request_msg, node_answer, lacks_room, token_on, touches_token};

use crate::holdings::{Holdings, answer};
use bmx_graph::{Answer, Decision, Effect, decide};
use bmx_msg::Msg;
use bmx_protocol::{Done, NodeAnswer};
use bmx_token::{Acquire, Release};
use bmx_types::{Command, Mode, Name, NoMemory, NodeNo, Operand, Refusal};

/// The graph's answer as a node's.
fn as_node(answer: Answer) -> NodeAnswer
    ensures { result ≡ node_answer answer }
{
    match answer {
        Answer::Nil => NodeAnswer::Nil,
        Answer::Value(value) => NodeAnswer::Value(value),
        Answer::Yes => NodeAnswer::Yes,
        Answer::No => NodeAnswer::No,
        Answer::Wait => NodeAnswer::Wait,
        Answer::Refused(why) => NodeAnswer::Refused(why),
    }
}

/// The message that asks for the token of a name in a mode.
pub(crate) fn request(name: Name, asker: NodeNo, mode: Mode) -> Msg
    ensures { result ≡ request_msg name asker mode }
{
    match mode {
        Mode::Read => Msg::ReadReq { name, asker },
        Mode::Write => Msg::WriteReq { name, asker },
    }
}

impl Holdings {
    /// Does a command, where it can be done now, and answers it.
    pub(crate) fn command(&mut self, command: &Command, stamp: u64) -> Result<Done, NoMemory>
        requires keeps { Keeps self.old }
        requires command { FitsCommand self.old.store.bunches command.now }
        requires clock { self.old.clock < 2 ^ 55 }
        requires few { self.old.made ≤ self.old.clock + 320000 }
        ensures reacts { IfOk result (λ done. Reacts stamp (state_of self.old) (do_rule self.old.me (state_of self.old) (lacks_room (shown self.old.memory) command.now) (lies_at self.old) command.now) done (state_of self.new)) }
        ensures places { IfOk result (λ done. places_of self.new ≡ (if is_nil done.answer then made_places self.old.me (node_of self.old) command.now else places_of self.old)) }
        ensures err { OnErr result (node_of self.new ≡ node_of self.old) }
        ensures keeps { Keeps self.new }
        ensures frame { Frame self.old self.new }
    {
        match *command {
            Command::Read { on } => self.acquire(on, Mode::Read, stamp),
            Command::Write { on } => self.acquire(on, Mode::Write, stamp),
            Command::Done { on } => self.release(on, stamp),
            Command::New { .. }
            | Command::Copy { .. }
            | Command::Drop { .. }
            | Command::Set { .. }
            | Command::Add { .. }
            | Command::Get { .. }
            | Command::Show { .. }
            | Command::Same { .. } => self.use_graph(command),
        }
    }

    /// Does a command that touches no token, as the graph does it. The object that it is on is found at once.
    #[inline(never)]
    fn use_graph(&mut self, command: &Command) -> Result<Done, NoMemory>
        requires keeps { Keeps self.old }
        requires command { FitsCommand self.old.store.bunches command.now }
        requires graph { touches_token command.now ≡ false }
        requires clock { self.old.clock < 2 ^ 55 }
        requires few { self.old.made ≤ self.old.clock + 320000 }
        ensures reacts { (stamp : ℕ) → IfOk result (λ done. Reacts stamp (state_of self.old) (do_rule self.old.me (state_of self.old) (lacks_room (shown self.old.memory) command.now) (lies_at self.old) command.now) done (state_of self.new)) }
        ensures places { IfOk result (λ done. places_of self.new ≡ (if is_nil done.answer then made_places self.old.me (node_of self.old) command.now else places_of self.old)) }
        ensures err { OnErr result (node_of self.new ≡ node_of self.old) }
        ensures keeps { Keeps self.new }
        ensures frame { Frame self.old self.new }
    {
        self.look(command);
        self.do_graph(command)
    }

    /// Finds the object that a command on a field is on, where a register refers to it.
    fn look(&mut self, command: &Command)
        requires { FitsCommand self.old.store.bunches command.now }
        ensures { self.new ≡ self.old }
    {
        match *command {
            Command::Set { on, .. } => self.look_on(on),
            Command::Add { on, .. } => self.look_on(on),
            Command::Get { on, .. } => self.look_on(on),
            Command::Show { on, .. } => self.look_on(on),
            Command::New { .. } => {}
            Command::Copy { .. } => {}
            Command::Drop { .. } => {}
            Command::Read { .. } => {}
            Command::Write { .. } => {}
            Command::Done { .. } => {}
            Command::Same { .. } => {}
        }
    }

    /// Finds the object to which an operand refers, where it is a register.
    #[inline(always)]
    fn look_on(&mut self, on: Operand)
        requires { FitsOperand self.old.store.bunches on }
        ensures { self.new ≡ self.old }
    {
        match on {
            Operand::Register(register) => self.memory.look_at(register),
            Operand::Anchor(_) => {}
            Operand::Int(_) => {}
            Operand::Null => {}
        }
    }

    /// Does a command that touches no token, as the graph does it.
    fn do_graph(&mut self, command: &Command) -> Result<Done, NoMemory>
        requires keeps { Keeps self.old }
        requires command { FitsCommand self.old.store.bunches command.now }
        requires graph { touches_token command.now ≡ false }
        requires clock { self.old.clock < 2 ^ 55 }
        requires few { self.old.made ≤ self.old.clock + 320000 }
        ensures reacts { (stamp : ℕ) → IfOk result (λ done. Reacts stamp (state_of self.old) (do_rule self.old.me (state_of self.old) (lacks_room (shown self.old.memory) command.now) (lies_at self.old) command.now) done (state_of self.new)) }
        ensures places { IfOk result (λ done. places_of self.new ≡ (if is_nil done.answer then made_places self.old.me (node_of self.old) command.now else places_of self.old)) }
        ensures err { OnErr result (node_of self.new ≡ node_of self.old) }
        ensures keeps { Keeps self.new }
        ensures frame { Frame self.old self.new }
    {
        let _known = self.memory.replica();
        let Decision { answer, effect } = decide(self, self.me, command);
        match effect {
            Effect::Makes {
                register,
                bunch,
                size,
            } => {
                if self.make(register, bunch, size)? {
                    Ok(self.tell(as_node(answer)))
                } else {
                    Ok(self.refuse(Refusal::Full))
                }
            }
            Effect::Sets { register, value } => {
                self.memory.set_register(register, value);
                Ok(self.tell(as_node(answer)))
            }
            Effect::Stores { name, index, value } => {
                self.memory.write_field(name, index, value);
                Ok(self.tell(as_node(answer)))
            }
            Effect::Nothing => Ok(self.tell(as_node(answer))),
            Effect::Holds { .. } => Ok(self.tell(as_node(answer))),
        }
    }

    /// Acquires the token of what an operand means.
    #[inline(never)]
    fn acquire(&mut self, on: Operand, mode: Mode, stamp: u64) -> Result<Done, NoMemory>
        requires keeps { Keeps self.old }
        requires operand { FitsOperand self.old.store.bunches on }
        ensures does { IfOk result (λ done. Does stamp self.old (token_on self.old (Acquires mode) on) done self.new) }
        ensures err { OnErr result (node_of self.new ≡ node_of self.old) }
        ensures keeps { Keeps self.new }
        ensures frame { Frame self.old self.new }
    {
        match self.target(on) {
            Some(name) => self.acquire_name(name, mode, stamp),
            None => Ok(self.refuse(Refusal::Empty)),
        }
    }

    /// Acquires the token of a name.
    fn acquire_name(&mut self, name: Name, mode: Mode, stamp: u64) -> Result<Done, NoMemory>
        requires { Keeps self.old }
        ensures does { IfOk result (λ done. Does stamp self.old (operation_on self.old (Acquires mode) (answer.Refused refusal.Empty) name) done self.new) }
        ensures err { OnErr result (node_of self.new ≡ node_of self.old) }
        ensures keeps { Keeps self.new }
        ensures frame { Frame self.old self.new }
    {
        let Some(part) = self.tokens.get(name) else {
            return Ok(self.refuse(Refusal::Empty));
        };
        let copy = self.memory.has_copy(name);
        let most = if part.asks(self.me, mode, copy) { 1 } else { 0 };
        let mut outbox = self.mail.outbox(self.alloc, stamp, most)?;
        match self.tokens.acquire(name, mode, copy)? {
            Acquire::Held => Ok(self.tell(NodeAnswer::Nil)),
            Acquire::Waits => Ok(self.tell(NodeAnswer::Wait)),
            Acquire::Refused => Ok(self.refuse(Refusal::Held)),
            Acquire::Asks(parent) => {
                let msg = request(name, self.me, mode);
                self.mail.post(&mut outbox, parent, msg);
                Ok(answer(NodeAnswer::Wait, outbox))
            }
        }
    }

    /// Releases the token of what an operand means.
    #[inline(never)]
    fn release(&mut self, on: Operand, stamp: u64) -> Result<Done, NoMemory>
        requires keeps { Keeps self.old }
        requires operand { FitsOperand self.old.store.bunches on }
        ensures does { IfOk result (λ done. Does stamp self.old (token_on self.old Releases on) done self.new) }
        ensures err { OnErr result (node_of self.new ≡ node_of self.old) }
        ensures keeps { Keeps self.new }
        ensures frame { Frame self.old self.new }
    {
        match self.target(on) {
            Some(name) => self.release_name(name, stamp),
            None => Ok(self.refuse(Refusal::Empty)),
        }
    }

    /// Releases the token of a name.
    fn release_name(&mut self, name: Name, stamp: u64) -> Result<Done, NoMemory>
        requires { Keeps self.old }
        ensures does { IfOk result (λ done. Does stamp self.old (operation_on self.old Releases (answer.Refused refusal.Empty) name) done self.new) }
        ensures err { OnErr result (node_of self.new ≡ node_of self.old) }
        ensures keeps { Keeps self.new }
        ensures frame { Frame self.old self.new }
    {
        let Some(part) = self.tokens.get(name) else {
            return Ok(self.refuse(Refusal::Empty));
        };
        let most = if part.due.is_some() { 1 } else { 0 };
        let mut outbox = self.mail.outbox(self.alloc, stamp, most)?;
        match self.tokens.release(name)? {
            Release::Free => Ok(self.tell(NodeAnswer::Nil)),
            Release::Refused => Ok(self.refuse(Refusal::NoToken)),
            Release::Answers(owner) => {
                self.memory.clear_copy(name);
                self.mail.post(&mut outbox, owner, Msg::InvAck { name });
                Ok(answer(NodeAnswer::Nil, outbox))
            }
        }
    }
}
