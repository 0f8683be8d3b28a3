//! What a node keeps of one object's token, as data.
ghost use Rattle.std.specs.Prelude.{◌≡◌, ℕ, ◌<◌, length, drop, IsTrue, IfOk, OnOk, OnErr, true, Some, None};
ghost use Rattle.bmx_types.specs.declared.numbers.Mode.TheVariants.{Read, Write};
ghost use Rattle.bmx_token.specs.declared.parts.Role.TheVariants.{Owner};
ghost use Rattle.bmx_token.specs.Services.{service_of, is_asking};
ghost use Rattle.bmx_token.specs.Transitions.{can_serve};
ghost use Rattle.bmx_token.specs.Tokens.{owner_part, child_part, parent_of, take_wanted, want_read, want_write, acquire, release, revoke, serve_alone, serve, request, granted, inval, ack};

use crate::answers::{Acquire, Release, Requested, Revoked, Served, Service};
use crate::nodes::{join, leave};
use bmx_types::{Items, Mode, NoMemory, NodeNo, NodeNos};
use std::alloc::Global;

/// Whether a node owns an object's token, or which node it asks for it.
#[derive(Clone, Copy, Debug, PartialEq, Eq)]
pub enum Role {
    Owner,
    Parent(NodeNo),
}

impl Role {
    /// The node to ask, where it isn't this one.
    fn parent(self) -> Option<NodeNo>
        ensures { result ≡ parent_of self }
    {
        match self {
            Role::Owner => None,
            Role::Parent(parent) => Some(parent),
        }
    }
}

/// A node that asks for the token, and the mode in which it wants it.
#[derive(Clone, Copy, Debug, PartialEq, Eq)]
pub struct Ask {
    pub asker: NodeNo,
    pub mode: Mode,
}

/// Who asks for a token, the earliest first.
pub type Queue = Items<Ask>;

/// The token of one object at one node.
#[derive(Debug, Drop)]
pub struct Part {
    pub role: Role,
    /// How the token is held here.
    pub held: Option<Mode>,
    /// How it is wanted here. Nothing is wanted while a token is held.
    pub want: Option<Mode>,
    /// Whether what is wanted may be taken.
    pub ready: bool,
    /// The owner that is to be told when the token is released.
    pub due: Option<NodeNo>,
    /// At the owner: the other nodes that have a copy, in rising order.
    pub readers: NodeNos,
    /// At the owner: who asks for the token.
    pub queue: Queue,
    /// At the owner: the readers that were told to give up their copies and haven't yet, in rising
    /// order.
    pub waiting: NodeNos,
}

impl Part {
    /// The token of an object at the node that makes it.
    pub fn owner(alloc: Global) -> Part
        ensures { result ≡ owner_part }
    {
        Part {
            role: Role::Owner,
            held: None,
            want: None,
            ready: false,
            due: None,
            readers: Items::new(alloc),
            queue: Items::new(alloc),
            waiting: Items::new(alloc),
        }
    }

    /// The token of an object at a node that is to ask another one for it.
    pub fn child(alloc: Global, parent: NodeNo) -> Part
        ensures { result ≡ child_part parent }
    {
        let mut part = Part::owner(alloc);
        part.role = Role::Parent(parent);
        part
    }

    /// Acquires the token in a mode at node `me`, which has a copy or not; an owner has one.
    pub fn acquire(&mut self, me: NodeNo, mode: Mode, copy: bool) -> Result<Acquire, NoMemory>
        requires { self.old.role ≡ Owner → IsTrue copy }
        ensures part { OnOk result (self.new ≡ (acquire me self.old mode copy).0) }
        ensures answer { IfOk result (λ a. a ≡ (acquire me self.old mode copy).1) }
        ensures err { OnErr result (self.new ≡ self.old) }
    {
        if self.held.is_some() {
            return Ok(Acquire::Refused);
        }
        match (self.want, mode) {
            (None, Mode::Read) => Ok(self.want_read(copy)),
            (None, Mode::Write) => self.want_write(me),
            (Some(Mode::Read), Mode::Read) | (Some(Mode::Write), Mode::Write) => {
                Ok(self.take_wanted(mode))
            }
            (Some(_), _) => Ok(Acquire::Refused),
        }
    }

    /// Whether acquiring the token in a mode at node `me`, which has a copy or not, asks another node.
    pub fn asks(&self, me: NodeNo, mode: Mode, copy: bool) -> bool
        ensures { result ≡ is_asking (acquire me self.now mode copy).1 }
    {
        if self.held.is_some() || self.want.is_some() || self.role == Role::Owner {
            return false;
        }
        mode == Mode::Write || !copy
    }

    /// Takes what is wanted, where it is ready.
    fn take_wanted(&mut self, mode: Mode) -> Acquire
        ensures part { self.new ≡ (take_wanted self.old mode self.old.ready).0 }
        ensures answer { result ≡ (take_wanted self.old mode self.old.ready).1 }
    {
        if !self.ready {
            return Acquire::Waits;
        }
        self.held = Some(mode);
        self.want = None;
        self.ready = false;
        Acquire::Held
    }

    /// Reads where there is a copy, and else wants to.
    fn want_read(&mut self, copy: bool) -> Acquire
        ensures part { self.new ≡ (want_read self.old self.old.role copy).0 }
        ensures answer { result ≡ (want_read self.old self.old.role copy).1 }
    {
        match self.role.parent() {
            Some(parent) if !copy => {
                self.want = Some(Mode::Read);
                Acquire::Asks(parent)
            }
            _ => {
                self.held = Some(Mode::Read);
                Acquire::Held
            }
        }
    }

    /// Writes at an owner that nobody else reads, and else wants to.
    fn want_write(&mut self, me: NodeNo) -> Result<Acquire, NoMemory>
        ensures part { OnOk result (self.new ≡ (want_write me self.old self.old.role self.old.readers).0) }
        ensures answer { IfOk result (λ a. a ≡ (want_write me self.old self.old.role self.old.readers).1) }
        ensures err { OnErr result (self.new ≡ self.old) }
    {
        match self.role.parent() {
            Some(parent) => {
                self.want = Some(Mode::Write);
                Ok(Acquire::Asks(parent))
            }
            None if self.readers.is_empty() => {
                self.held = Some(Mode::Write);
                Ok(Acquire::Held)
            }
            None => {
                self.queue.push(Ask {
                    asker: me,
                    mode: Mode::Write,
                })?;
                self.want = Some(Mode::Write);
                Ok(Acquire::Waits)
            }
        }
    }

    /// Releases the token.
    pub fn release(&mut self) -> Release
        ensures part { self.new ≡ (release self.old).0 }
        ensures answer { result ≡ (release self.old).1 }
    {
        if self.held.is_none() {
            return Release::Refused;
        }
        self.held = None;
        match self.due.take() {
            Some(owner) => Release::Answers(owner),
            None => Release::Free,
        }
    }

    /// What serving the head of the owner's queue at node `me` would lead to.
    pub fn service(&self, me: NodeNo) -> Service
        ensures { result ≡ service_of (serve me self.now).1 }
    {
        if self.role != Role::Owner || self.queue.is_empty() {
            return Service::Idle;
        }
        let head = *self.queue.at(0);
        match head.mode {
            Mode::Read if self.held == Some(Mode::Write) || self.ready => Service::Idle,
            Mode::Read => Service::Read(head.asker),
            Mode::Write if self.readers.is_empty() => self.service_alone(me, head.asker),
            Mode::Write if self.waiting.is_empty() => Service::Revokes,
            Mode::Write => Service::Idle,
        }
    }

    /// The same for a write at the head, where nobody else reads.
    fn service_alone(&self, me: NodeNo, asker: NodeNo) -> Service
        ensures { result ≡ service_of (serve_alone me self.now asker (drop 1 self.now.queue)).1 }
    {
        if self.held.is_some() || self.ready {
            Service::Idle
        } else if asker == me {
            Service::Ready
        } else {
            Service::Moves(asker)
        }
    }

    /// Whether the head of the owner's queue at node `me` can be served.
    pub fn can_serve(&self, me: NodeNo) -> bool
        ensures { result ≡ can_serve me self.now }
    {
        self.service(me) != Service::Idle
    }

    /// Serves the head of the owner's queue at node `me`, where it can be served.
    pub fn serve(&mut self, me: NodeNo) -> Result<Served, NoMemory>
        ensures part { OnOk result (self.new ≡ (serve me self.old).0) }
        ensures answer { IfOk result (λ a. a ≡ (serve me self.old).1) }
        ensures err { OnErr result (self.new ≡ self.old) }
    {
        if self.role != Role::Owner || self.queue.is_empty() {
            return Ok(Served::Idle);
        }
        let head = *self.queue.at(0);
        match head.mode {
            Mode::Read if self.held == Some(Mode::Write) || self.ready => Ok(Served::Idle),
            Mode::Read => {
                join(&mut self.readers, head.asker)?;
                self.queue.remove(0);
                Ok(Served::Read(head.asker))
            }
            Mode::Write if self.readers.is_empty() => Ok(self.serve_alone(me, head.asker)),
            Mode::Write => self.revoke(),
        }
    }

    /// Tells the readers to give up their copies, unless they were told.
    fn revoke(&mut self) -> Result<Served, NoMemory>
        ensures part { OnOk result (self.new ≡ (revoke self.old self.old.waiting).0) }
        ensures answer { IfOk result (λ a. a ≡ (revoke self.old self.old.waiting).1) }
        ensures err { OnErr result (self.new ≡ self.old) }
    {
        if !self.waiting.is_empty() {
            return Ok(Served::Idle);
        }
        let alloc = *self.waiting.take().into_vec().allocator();
        let told = self.readers.copy(alloc)?;
        self.waiting = self.readers.copy(alloc)?;
        Ok(Served::Revokes(told))
    }

    /// Lets the head write, where nobody else reads and nothing is held here.
    fn serve_alone(&mut self, me: NodeNo, asker: NodeNo) -> Served
        requires { 0 < length self.old.queue }
        ensures part { self.new ≡ (serve_alone me self.old asker (drop 1 self.old.queue)).0 }
        ensures answer { result ≡ (serve_alone me self.old asker (drop 1 self.old.queue)).1 }
    {
        if self.held.is_some() || self.ready {
            return Served::Idle;
        }
        self.queue.remove(0);
        if asker == me {
            self.ready = true;
            return Served::Ready;
        }
        self.role = Role::Parent(asker);
        Served::Moves {
            to: asker,
            rest: self.queue.take(),
        }
    }

    /// Takes in that a node asks for the token in a mode, at node `me`.
    pub fn request(&mut self, me: NodeNo, asker: NodeNo, mode: Mode) -> Result<Requested, NoMemory>
        ensures part { OnOk result (self.new ≡ (request me self.old asker mode).0) }
        ensures answer { IfOk result (λ a. a ≡ (request me self.old asker mode).1) }
        ensures err { OnErr result (self.new ≡ self.old) }
    {
        match self.role.parent() {
            Some(parent) => Ok(Requested::Forward(parent)),
            None if asker == me => Ok(Requested::Stray),
            None => {
                self.queue.push(Ask { asker, mode })?;
                Ok(Requested::Queued)
            }
        }
    }

    /// Whether a grant would be taken in, whoever sends it.
    pub fn awaits(&self, mode: Mode) -> bool
        ensures { (from : ℕ) → result ≡ (granted self.now from mode).1 }
    {
        self.role != Role::Owner && self.want == Some(mode) && !self.ready
    }

    /// Takes in a grant. False where nothing of that mode is wanted that isn't there.
    pub fn granted(&mut self, from: NodeNo, mode: Mode) -> bool
        ensures part { self.new ≡ (granted self.old from mode).0 }
        ensures answer { result ≡ (granted self.old from mode).1 }
    {
        if self.role == Role::Owner || self.want != Some(mode) || self.ready {
            return false;
        }
        self.ready = true;
        match mode {
            Mode::Read => self.role = Role::Parent(from),
            Mode::Write => {
                self.role = Role::Owner;
                self.readers.clear();
                self.queue.clear();
                self.waiting.clear();
            }
        }
        true
    }

    /// Takes in an invalidation, at a node that has a copy or not. None where an owner gets one, or a
    /// second comes before the first was acknowledged.
    pub fn inval(&mut self, from: NodeNo, copy: bool) -> Option<Revoked>
        ensures part { self.new ≡ (inval self.old from copy).0 }
        ensures answer { result ≡ (inval self.old from copy).1 }
    {
        if self.role == Role::Owner || self.due.is_some() {
            return None;
        }
        if copy && (self.held.is_some() || self.ready) {
            self.due = Some(from);
            return Some(Revoked::AtRelease);
        }
        Some(Revoked::Now)
    }

    /// Takes in an acknowledgement. False where the sender isn't waited for.
    pub fn ack(&mut self, from: NodeNo) -> bool
        ensures part { self.new ≡ (ack self.old from).0 }
        ensures answer { result ≡ (ack self.old from).1 }
    {
        if self.role != Role::Owner || !self.waiting.as_slice().contains(&from) {
            return false;
        }
        leave(&mut self.waiting, from);
        leave(&mut self.readers, from);
        true
    }
}
