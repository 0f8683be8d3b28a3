//! What a node has of objects and registers, as its rules see it.
ghost use Rattle.std.specs.Prelude.{◌≡◌, ℕ, ◌+◌, ◌<◌, ◌≤◌, true, false, Some, None, IsSome, IfSome, IsErrOf, OnOk, OnErr, is_some, not};
ghost use Rattle.bmx_types.specs.declared.values.Val.TheVariants.{Null};
ghost use Rattle.bmx_protocol.specs.Places.{no_places, is_full};
ghost use Rattle.bmx_segment.specs.declared.segments.PlaceError.TheVariants.{Full};
ghost use Rattle.bmx_replica.specs.Replicas.{StandsAt, HasTarget, WritesField, field_of};
ghost use Rattle.bmx_memory.specs.Contents.{room_of};
ghost use Rattle.bmx_memory.specs.Shown.{shown, HasEntry, AllHaveEntries, value_of, has_copy, info_of, with_register, with_copy, with_stored, with_object, with_info, Fits};
ghost use Rattle.bmx_memory.specs.Meaning.{MeansWhole};

use bmx_replica::{Object, Replica, Words};
use bmx_segment::PlaceError;
use bmx_types::{BunchNo, Info, Name, NoMemory, NodeNo, Val};
use std::alloc::Global;
use std::marker::Model;

/// A register, and the object to which it refers, where it stands.
#[derive(Clone, Copy)]
pub(crate) struct Seen {
    pub(crate) register: u8,
    pub(crate) object: Object,
}

/// What a node has of objects. Contracts see its contents, and what they show to the rules of a node.
#[derive(Drop)]
pub struct Memory {
    pub(crate) replica: Replica,
    pub(crate) registers: Words,
    /// What was looked at last, until something changes.
    pub(crate) seen: Option<Seen>,
}

impl Model for Memory {
    ghost use Rattle.bmx_memory.specs.Contents.{Contents};
    ghost use Rattle.std.specs.Prelude.{IfSome};
    ghost use Rattle.bmx_memory.specs.Inside.Keeping.{Keeps, IsSeen};

    ghost Value = { Contents };

    ghost view = { λ m. record { replica = m.replica; registers = m.registers } };

    ghost invariant = { λ m. let c : Contents = record { replica = m.replica; registers = m.registers } in Keeps c × IfSome m.seen (IsSeen c) };
}

impl Memory {
    /// No object, no segment, and registers that are null. Takes no memory.
    pub fn new(alloc: Global, me: NodeNo, limit: u32) -> Memory
        requires { limit ≤ 65535 }
        ensures { shown result ≡ record { me = me; limit = limit; object = λ _. None; places = no_places; register = λ _. Null } }
    {
        let replica = Replica::new(alloc, me, limit);
        let _sound = replica.segments();
        let registers = Words::new();
        Memory {
            replica,
            registers,
            seen: None,
        }
    }

    /// What it has of objects, in words.
    pub fn replica(&self) -> &Replica
        ensures value { result.now ≡ self.now.replica }
        ensures whole { MeansWhole self.now }
        ensures known { AllHaveEntries (shown self.now) }
    {
        &self.replica
    }

    /// What a register holds.
    pub fn register(&self, register: u8) -> Val
        requires { register < 16 }
        ensures value { result ≡ (shown self.now).register register }
        ensures known { HasEntry (shown self.now) result }
    {
        if let Some(seen) = &self.seen {
            if seen.register == register {
                return Val::Ref(seen.object.header.name);
            }
        }
        self.replica.value(self.registers.at(register))
    }

    /// A register holds a value, a reference as the current address of its name.
    pub fn set_register(&mut self, register: u8, value: Val)
        requires register { register < 16 }
        requires known { HasEntry (shown self.old) value }
        ensures shown { shown self.new ≡ with_register (shown self.old) register value }
        ensures room { room_of self.new ≡ room_of self.old }
    {
        self.seen = None;
        let word = self.replica.word(value);
        self.registers.set(register, word);
    }

    /// What the node tells of the object of a name, None where the name has no entry.
    pub fn info(&self, name: Name) -> Option<Info>
        ensures { result ≡ info_of (shown self.now) name }
    {
        self.replica.info(name)
    }

    /// Whether the name has a copy.
    pub fn has_copy(&self, name: Name) -> bool
        ensures { result ≡ has_copy (shown self.now) name }
    {
        self.replica.has_copy(name)
    }

    /// The value in a field of a name's copy, None where the name has no copy or the copy no such field.
    pub fn field(&self, name: Name, i: u8) -> Option<Val>
        ensures value { result ≡ value_of (shown self.now) name i }
        ensures known { IfSome result (λ v. HasEntry (shown self.now) v) }
    {
        if let Some(seen) = &self.seen {
            if seen.object.header.name == name {
                return self.field_at(&seen.object, i);
            }
        }
        self.replica.field(name, i)
    }

    /// A field of a name's copy holds a value.
    pub fn write_field(&mut self, name: Name, i: u8, value: Val)
        requires field { IsSome (value_of (shown self.old) name i) }
        requires known { HasEntry (shown self.old) value }
        ensures shown { shown self.new ≡ with_stored (shown self.old) name i value }
        ensures room { room_of self.new ≡ room_of self.old }
    {
        store(&mut self.replica, &self.seen, name, i, value);
        self.seen = None;
        let _sound = self.replica.segments();
    }

    /// Makes an object of null fields under a new name. It is full exactly where the bunch's open segment
    /// lacks room and no more segments may be made.
    pub fn make(&mut self, name: Name, bunch: BunchNo, size: u8) -> Result<(), PlaceError>
        requires fresh { (shown self.old).object name ≡ None }
        requires few { size ≤ 32 }
        ensures ok { OnOk result (shown self.new ≡ with_object (shown self.old) name bunch size) }
        ensures full { let m = shown self.old in IsErrOf result Full → is_full m.limit m.places bunch size ≡ true }
        ensures fits { let m = shown self.old in OnOk result (is_full m.limit m.places bunch size ≡ false) }
        ensures err { OnErr result (shown self.new ≡ shown self.old) }
        ensures room { room_of self.old ≤ room_of self.new + 1 }
    {
        let _few = bunch.get();
        self.seen = None;
        let made = self.replica.make(name, bunch, size);
        let _sound = self.replica.segments();
        made
    }

    /// The same for an object that the store opens with, without a limit on segments.
    pub fn make_birth(&mut self, name: Name, bunch: BunchNo, size: u8) -> Result<(), NoMemory>
        requires fresh { (shown self.old).object name ≡ None }
        requires few { size ≤ 32 }
        requires more { (shown self.old).places.made < 65535 }
        ensures ok { OnOk result (shown self.new ≡ with_object (shown self.old) name bunch size) }
        ensures err { OnErr result (shown self.new ≡ shown self.old) }
        ensures room { room_of self.old ≤ room_of self.new + 1 }
    {
        let _few = bunch.get();
        self.seen = None;
        let made = self.replica.make_birth(name, bunch, size);
        let _sound = self.replica.segments();
        made
    }

    /// Makes room for so many Infos to be learnt without memory.
    pub fn reserve(&mut self, n: u32) -> Result<(), NoMemory>
        ensures shown { shown self.new ≡ shown self.old }
        ensures ok { OnOk result (n ≤ room_of self.new) }
        ensures room { room_of self.old ≤ room_of self.new }
    {
        self.seen = None;
        let reserved = self.replica.reserve(n);
        let _sound = self.replica.segments();
        reserved
    }

    /// Learns where an object lies, which an Info tells, and of the object where its name has no entry.
    /// Takes no memory.
    pub fn learn(&mut self, info: &Info)
        requires few { info.now.size ≤ 32 }
        requires fits { Fits (shown self.old) info.now }
        requires some { 0 < room_of self.old }
        ensures shown { shown self.new ≡ with_info (shown self.old) info.now }
        ensures room { room_of self.old ≤ room_of self.new + 1 }
    {
        let _new = self.hear(info);
    }

    /// The same, and whether the name had no entry.
    pub fn hear(&mut self, info: &Info) -> bool
        requires few { info.now.size ≤ 32 }
        requires fits { Fits (shown self.old) info.now }
        requires some { 0 < room_of self.old }
        ensures new { result ≡ not (is_some ((shown self.old).object info.now.name)) }
        ensures shown { shown self.new ≡ with_info (shown self.old) info.now }
        ensures room { room_of self.old ≤ room_of self.new + 1 }
    {
        let _few = info.place.address.segment();
        self.seen = None;
        let Ok(new) = self.replica.hear(info) else {
            unreachable!()
        };
        let _sound = self.replica.segments();
        new
    }

    /// The name has no copy from now on. Where it has no entry nothing changes.
    pub fn clear_copy(&mut self, name: Name)
        ensures shown { shown self.new ≡ with_copy (shown self.old) name None }
        ensures room { room_of self.new ≡ room_of self.old }
    {
        self.seen = None;
        self.replica.clear_copy(name);
        let _sound = self.replica.segments();
    }
}

/// Writes a field of a name's copy, with no look-up of the name where its object was seen.
fn store(replica: &mut Replica, seen: &Option<Seen>, name: Name, i: u8, value: Val)
    requires stands { IfSome seen.now (λ s. StandsAt replica.old s.object) }
    requires field { IsSome (field_of replica.old name i) }
    requires target { HasTarget replica.old value }
    ensures { WritesField replica.old replica.new name i value }
{
    if let Some(seen) = seen {
        if seen.object.header.name == name {
            replica.store_at(&seen.object, i, value);
            return;
        }
    }
    replica.write_field(name, i, value);
}
