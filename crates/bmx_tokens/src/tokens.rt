//! A node's tokens by name. It knows nothing of words and letters.
ghost use Rattle.std.specs.Prelude.{◌≡◌, ◌≤◌, ◌<◌, ◌+◌, ◌↔◌, ℕ, [], length, slice_get, Contains, Some, None, IsSome, IsTrue, OnOk, OnErr, IfOk, IfSome, IfNone};
ghost use Rattle.std.specs.List.Sorted.{IsStrictlyIncreasing};
ghost use Rattle.bmx_token.specs.Tokens.{acquire, release, serve, request, granted, inval, ack};
ghost use Rattle.bmx_token.specs.declared.parts.Role.TheVariants.{Owner};
ghost use Rattle.bmx_tokens.specs.Tables.{part_of, part_at, Becomes, IsIndexed};
ghost use Rattle.bmx_types.specs.Updates.{put};

use crate::servable::Servable;
use bmx_token::{Acquire, Part, Release, Requested, Revoked, Served};
use bmx_types::{Mode, Name, Names, NoMemory, NodeNo};
use indexmap::IndexMap;
use std::alloc::Global;
use std::marker::Model;

// One call of the token of a name, after which the index has the name just where it can be served.
macro_rules! change {
    ($tokens:ident, $name:ident, $part:ident, $call:expr) => {{
        $tokens.servable.reserve()?;
        let Some($part) = $tokens.parts.get_mut(&$name) else {
            unreachable!()
        };
        let answer = $call;
        let is_served = $part.can_serve($tokens.me);
        $tokens.servable.put($name, is_served);
        Ok(answer)
    }};
}

/// A node's tokens by name, and which of them it can serve. Contracts see the token of each name, the names
/// that can be served, and for how many more names there is room.
#[derive(Drop)]
pub struct Tokens {
    me: NodeNo,
    parts: IndexMap<Name, Part>,
    servable: Servable,
}

impl Model for Tokens {
    ghost use Rattle.std.specs.Prelude.{◌≡◌, ℕ, ◌↔◌, Contains, true};
    ghost use Rattle.indexmap.specs.IndexMap.{spare};
    ghost use Rattle.bmx_tokens.specs.Tables.{Table, is_served_at};

    ghost Value = { Table };

    ghost view = { λ t. record { me = t.me; parts = t.parts.entries; servable = t.servable.names; spare = spare t.parts } };

    ghost invariant = { λ t. (x : ℕ) → Contains t.servable.names x ↔ (is_served_at t.me t.parts.entries x ≡ true) };
}

impl Tokens {
    /// No token, at node `me`. Takes no memory.
    pub fn new(alloc: Global, me: NodeNo) -> Tokens
        ensures me { result.me ≡ me }
        ensures parts { result.parts ≡ [] }
        ensures servable { result.servable ≡ [] }
    {
        Tokens {
            me,
            parts: IndexMap::new(alloc),
            servable: Servable::new(alloc),
        }
    }

    /// Makes room for so many more names. Linear in the names where it must move them.
    pub fn reserve(&mut self, n: usize) -> Result<(), NoMemory>
        ensures rest { self.new ≡ record self.old { spare = self.new.spare } }
        ensures ok { OnOk result (n ≤ self.new.spare) }
        ensures spare { self.old.spare ≤ self.new.spare }
    {
        self.parts.reserve(n)?;
        Ok(())
    }

    /// The token of a name, None where the node doesn't know the name. Expected constant time, as each look-up.
    pub fn get(&self, name: Name) -> Option<&Part>
        ensures some { IfSome result (λ p. part_of self.now name ≡ Some p.now) }
        ensures none { IfNone result (part_of self.now name ≡ None) }
    {
        self.parts.get(&name)
    }

    /// All names with a token, by rising name. Sorts them.
    pub fn names(&self, alloc: Global) -> Result<Names, NoMemory>
        ensures rises { IfOk result (λ names. IsStrictlyIncreasing names) }
        ensures exact { IfOk result (λ names. (x : ℕ) → Contains names x ↔ IsSome (part_of self.now x)) }
    {
        let mut names: Vec<Name> = self.parts.keys().copied().collect(alloc)?;
        names.sort_unstable();
        Ok(Names::from_vec(names))
    }

    /// The i-th name, by rising name, whose queue can be served; None from their number on.
    pub fn serves(&self, i: u64) -> Option<Name>
        ensures name { result ≡ slice_get self.now.servable i }
        ensures index { IsIndexed self.now }
    {
        self.servable.get(i)
    }

    /// How many names there are whose queue can be served.
    pub fn served_count(&self) -> usize
        ensures { result ≡ length self.now.servable }
    {
        self.servable.len()
    }

    /// The token of a name that had none, whose queue is empty.
    pub fn add(&mut self, name: Name, part: Part)
        requires none { part_of self.old name ≡ None }
        requires idle { part.queue ≡ [] }
        requires room { 0 < self.old.spare }
        ensures part { part_of self.new ≡ put (part_of self.old) name (Some part) }
        ensures me { self.new.me ≡ self.old.me }
        ensures spare { self.old.spare ≤ self.new.spare + 1 }
    {
        let Ok(_) = self.parts.insert(name, part) else {
            unreachable!()
        };
    }

    /// The token is acquired in a mode; the node has a copy of the object or not.
    pub fn acquire(&mut self, name: Name, mode: Mode, copy: bool) -> Result<Acquire, NoMemory>
        requires there { IsSome (part_of self.old name) }
        requires copy { (part_at self.old name).role ≡ Owner → IsTrue copy }
        ensures part { OnOk result (Becomes self.old self.new name (acquire self.old.me (part_at self.old name) mode copy).0) }
        ensures answer { IfOk result (λ a. a ≡ (acquire self.old.me (part_at self.old name) mode copy).1) }
        ensures err { OnErr result (self.new ≡ self.old) }
    {
        change!(self, name, part, part.acquire(self.me, mode, copy)?)
    }

    /// The token is released.
    pub fn release(&mut self, name: Name) -> Result<Release, NoMemory>
        requires there { IsSome (part_of self.old name) }
        ensures part { OnOk result (Becomes self.old self.new name (release (part_at self.old name)).0) }
        ensures answer { IfOk result (λ a. a ≡ (release (part_at self.old name)).1) }
        ensures err { OnErr result (self.new ≡ self.old) }
    {
        change!(self, name, part, part.release())
    }

    /// The head of the queue is served, where it can be.
    pub fn serve(&mut self, name: Name) -> Result<Served, NoMemory>
        requires there { IsSome (part_of self.old name) }
        ensures part { OnOk result (Becomes self.old self.new name (serve self.old.me (part_at self.old name)).0) }
        ensures answer { IfOk result (λ a. a ≡ (serve self.old.me (part_at self.old name)).1) }
        ensures err { OnErr result (self.new ≡ self.old) }
    {
        change!(self, name, part, part.serve(self.me)?)
    }

    /// A node asks for the token in a mode.
    pub fn request(&mut self, name: Name, asker: NodeNo, mode: Mode) -> Result<Requested, NoMemory>
        requires there { IsSome (part_of self.old name) }
        ensures part { OnOk result (Becomes self.old self.new name (request self.old.me (part_at self.old name) asker mode).0) }
        ensures answer { IfOk result (λ a. a ≡ (request self.old.me (part_at self.old name) asker mode).1) }
        ensures err { OnErr result (self.new ≡ self.old) }
    {
        change!(self, name, part, part.request(self.me, asker, mode)?)
    }

    /// A grant comes from a node. False where nothing of that mode is wanted that isn't there.
    pub fn granted(&mut self, name: Name, from: NodeNo, mode: Mode) -> Result<bool, NoMemory>
        requires there { IsSome (part_of self.old name) }
        ensures part { OnOk result (Becomes self.old self.new name (granted (part_at self.old name) from mode).0) }
        ensures answer { IfOk result (λ a. a ≡ (granted (part_at self.old name) from mode).1) }
        ensures err { OnErr result (self.new ≡ self.old) }
    {
        change!(self, name, part, part.granted(from, mode))
    }

    /// An invalidation comes from a node, where there is a copy or not. None where it is stray.
    pub fn inval(
        &mut self,
        name: Name,
        from: NodeNo,
        copy: bool,
    ) -> Result<Option<Revoked>, NoMemory>
        requires there { IsSome (part_of self.old name) }
        ensures part { OnOk result (Becomes self.old self.new name (inval (part_at self.old name) from copy).0) }
        ensures answer { IfOk result (λ a. a ≡ (inval (part_at self.old name) from copy).1) }
        ensures err { OnErr result (self.new ≡ self.old) }
    {
        change!(self, name, part, part.inval(from, copy))
    }

    /// An acknowledgement comes from a node. False where the node isn't waited for.
    pub fn ack(&mut self, name: Name, from: NodeNo) -> Result<bool, NoMemory>
        requires there { IsSome (part_of self.old name) }
        ensures part { OnOk result (Becomes self.old self.new name (ack (part_at self.old name) from).0) }
        ensures answer { IfOk result (λ a. a ≡ (ack (part_at self.old name) from).1) }
        ensures err { OnErr result (self.new ≡ self.old) }
    {
        change!(self, name, part, part.ack(from))
    }
}
